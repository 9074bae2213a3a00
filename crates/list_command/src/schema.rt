// The schema that a file's bytes are.
ghost use Rattle.std.specs.Prelude.{◌≡◌, ◌≤◌, ℕ, List, length, IfOk, IfErr};
ghost use Rattle.rng_model.specs.Restrictions.{BreaksNoRule};
ghost use Rattle.grammar_laws.specs.Files.{Full as FullTree};
ghost use Rattle.simple_form_laws.specs.Faults.{Simple};
ghost use Rattle.schema_tree.specs.Files.{full_of};
ghost use Rattle.list_command.specs.Accepting.{IsTreeOf, IsTakenTree, Refuses, Accepts};
ghost use Rattle.list_command.specs.Refusals.{IfRefused};

use crate::outcome::SchemaFault;
use crate::schema_faults::{feature_fault, no_form, no_tokens, no_tree, restriction};
use pattern_intern::Schema;
use restrictions::broken;
use rnc_lexer::lex;
use rnc_parser::parse;
use schema_tree::{Full, refused_feature};
use simplify::simplify;
use std::alloc::Global;
use tree_laws::trees_are_whole;

/// Why bytes give no schema.
#[derive(Drop)]
pub(crate) enum ReadSchemaFault {
    /// They are refused.
    Refused(SchemaFault),
    OutOfMemory,
}

/// The schema in its simple form.
pub(crate) fn read_schema(alloc: Global, bytes: &[u8]) -> Result<Schema, ReadSchemaFault>
    requires { length bytes.now ≤ 1048576 }
    ensures accepted { IfOk result (λ schema. Accepts bytes.now schema.schema) }
    ensures sound { IfOk result (λ schema. BreaksNoRule schema.schema) }
    ensures refused { IfErr result (λ fault. IfRefused (Refuses bytes.now) fault) }
{
    let full = read_tree(alloc, bytes)?;
    form_of(alloc, &full)
}

/// The tree of the schema.
fn read_tree(alloc: Global, bytes: &[u8]) -> Result<Full, ReadSchemaFault>
    requires { length bytes.now ≤ 1048576 }
    ensures tree { IfOk result (λ full. IsTreeOf bytes.now (full_of full)) }
    ensures refused { IfErr result (λ fault. IfRefused (Refuses bytes.now) fault) }
{
    let tokens = match lex(alloc, bytes) {
        Ok(tokens) => tokens,
        Err(fault) => return Err(no_tokens(fault)),
    };
    match parse(alloc, &tokens) {
        Ok(full) => Ok(full),
        Err(fault) => Err(no_tree(fault)),
    }
}

/// The simple form of the tree.
fn form_of(alloc: Global, full: &Full) -> Result<Schema, ReadSchemaFault>
    requires { (bytes : List ℕ) × IsTreeOf bytes (full_of full.now) }
    ensures accepted { (bytes : List ℕ) → IsTreeOf bytes (full_of full.now) → IfOk result (λ schema. Accepts bytes schema.schema) }
    ensures sound { IfOk result (λ schema. BreaksNoRule schema.schema) }
    ensures refused { (bytes : List ℕ) → IsTreeOf bytes (full_of full.now) → IfErr result (λ fault. IfRefused (Refuses bytes) fault) }
{
    if let Some((feature, at)) = refused_feature(full) {
        return Err(ReadSchemaFault::Refused(feature_fault(feature, at)));
    }
    trees_are_whole();
    match simplify(alloc, full) {
        Ok(schema) => unbroken(alloc, schema),
        Err(fault) => Err(no_form(fault)),
    }
}

/// The schema, where it breaks no rule.
fn unbroken(alloc: Global, schema: Schema) -> Result<Schema, ReadSchemaFault>
    ensures same { IfOk result (λ r. r ≡ schema) }
    ensures sound { IfOk result (λ r. BreaksNoRule schema.schema) }
    ensures refused { (bytes : List ℕ) (full : FullTree) → IsTakenTree bytes full → Simple full schema.schema → IfErr result (λ fault. IfRefused (Refuses bytes) fault) }
{
    match broken(alloc, &schema) {
        Ok(None) => Ok(schema),
        Ok(Some(rule)) => Err(ReadSchemaFault::Refused(restriction(rule))),
        Err(_) => Err(ReadSchemaFault::OutOfMemory),
    }
}
