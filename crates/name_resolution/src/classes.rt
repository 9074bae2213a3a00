// Name classes with their names resolved (RELAX NG Specification, section Simplification: name attribute, ns attribute, QNames).
ghost use Rattle.std.specs.Prelude.{◌≡◌, IfOk, IsTrue, option_map, map};
ghost use Rattle.rng_model.specs.Classes as simple;
ghost use Rattle.rng_model.specs.Names.{is_ncname};
ghost use Rattle.name_classes.specs.Views.{class_of as class_value};
ghost use Rattle.grammar_laws.specs.Trees.{classes_of as listed};
ghost use Rattle.schema_tree.specs.Trees.{class_of as tree_class};
ghost use Rattle.simple_form_laws.specs.ClassForms.{class_of, classes_of, named, namespace_except_of, nested_left, unprefixed};
ghost use Rattle.name_resolution.specs.NcNames.{HasNcNames, HaveNcNames};
ghost use Rattle.name_resolution.specs.Owners.{use_of};

use crate::namespaces::Namespaces;
use name_classes::{Name, NameClass};
use schema_tree::Class;
use std::alloc::{AllocError, Global};
use text_atoms::Text;

/// Whose name class it is. A name without a prefix has the default namespace in an element's, and no namespace in an attribute's.
#[derive(Clone, Copy, Debug, PartialEq, Eq)]
pub enum Owner {
    Element,
    Attribute,
}

pub(crate) fn text(alloc: Global, characters: &str) -> Result<Text, AllocError>
    ensures { IfOk result (λ t. t ≡ characters.now) }
{
    Ok(Text::from_string(String::from_str(alloc, characters)?))
}

// The class of one name.
fn one(alloc: Global, namespace: &str, local: &Text) -> Result<NameClass, AllocError>
    requires { IsTrue (is_ncname local.now) }
    ensures { IfOk result (λ c. class_value c ≡ simple.one (named namespace.now local.now)) }
{
    let namespace = text(alloc, namespace)?;
    let local = local.copy(alloc)?;
    match Name::new(namespace, local) {
        Ok(name) => NameClass::one(alloc, name),
        Err(_) => unreachable!(),
    }
}

// The class of one name, where its prefix is bound.
fn prefixed(
    alloc: Global,
    namespace: Option<&str>,
    local: &Text,
) -> Result<Option<NameClass>, AllocError>
    requires { IsTrue (is_ncname local.now) }
    ensures { IfOk result (λ c. option_map class_value c ≡ option_map (λ u. simple.one (named u local.now)) (option_map (λ u. u.now) namespace.entry)) }
{
    match namespace {
        Some(namespace) => Ok(Some(one(alloc, namespace, local)?)),
        None => Ok(None),
    }
}

// All names of a namespace, where its prefix is bound.
fn all_names(alloc: Global, namespace: Option<&str>) -> Result<Option<NameClass>, AllocError>
    ensures { IfOk result (λ c. option_map class_value c ≡ option_map simple.namespace (option_map (λ u. u.now) namespace.entry)) }
{
    match namespace {
        Some(namespace) => {
            let namespace = text(alloc, namespace)?;
            Ok(Some(NameClass::namespace(alloc, namespace)?))
        }
        None => Ok(None),
    }
}

// All names of a namespace but those of a class, where there are both.
fn namespace_except(
    alloc: Global,
    namespace: Option<&str>,
    except: Option<NameClass>,
) -> Result<Option<NameClass>, AllocError>
    ensures { IfOk result (λ c. option_map class_value c ≡ namespace_except_of (option_map (λ u. u.now) namespace.entry) (option_map class_value except)) }
{
    let (Some(namespace), Some(except)) = (namespace, except) else {
        return Ok(None);
    };
    let namespace = text(alloc, namespace)?;
    Ok(Some(NameClass::namespace_except(namespace, except)?))
}

// Any name but those of a class, where there is one.
fn any_except(except: Option<NameClass>) -> Result<Option<NameClass>, AllocError>
    ensures { IfOk result (λ c. option_map class_value c ≡ option_map simple.any_except (option_map class_value except)) }
{
    match except {
        Some(except) => Ok(Some(NameClass::any_except(except)?)),
        None => Ok(None),
    }
}

impl Namespaces<'_> {
    // The namespace of a name without a prefix at the place.
    fn unprefixed(&self, owner: Owner, at: usize) -> &str
        ensures { result.now ≡ unprefixed self.now (use_of owner) at }
    {
        match owner {
            Owner::Element => self.default_namespace(at),
            Owner::Attribute => "",
        }
    }

    /// The class with its names resolved; none where a prefix in it isn't bound. It recurses as deep as the class nests, and a choice
    /// is nested to the left.
    #[cycle(class)]
    pub fn class(
        &self,
        alloc: Global,
        owner: Owner,
        class: &Class,
    ) -> Result<Option<NameClass>, AllocError>
        requires { HasNcNames (tree_class class.now) }
        ensures { IfOk result (λ c. option_map class_value c ≡ class_of self.now (use_of owner) (tree_class class.now)) }
    {
        match class {
            Class::Plain { local, at } => {
                Ok(Some(one(alloc, self.unprefixed(owner, *at), local)?))
            }
            Class::Prefixed { prefix, local, at } => {
                prefixed(alloc, self.namespace(prefix.as_str(), *at), local)
            }
            Class::Any { except, .. } => match except {
                Some(except) => {
                    let except = self.class(alloc, owner, except.get())?;
                    any_except(except)
                }
                None => Ok(Some(NameClass::any(alloc)?)),
            },
            Class::Namespace { prefix, except, at } => {
                let namespace = self.namespace(prefix.as_str(), *at);
                match except {
                    Some(except) => {
                        let except = self.class(alloc, owner, except.get())?;
                        namespace_except(alloc, namespace, except)
                    }
                    None => all_names(alloc, namespace),
                }
            }
            Class::Choice(members) => self.choice(alloc, owner, members.as_slice()),
        }
    }

    // The choice of the members, nested to the left.
    #[cycle(class)]
    fn choice(
        &self,
        alloc: Global,
        owner: Owner,
        members: &[Class],
    ) -> Result<Option<NameClass>, AllocError>
        requires { HaveNcNames (listed (map tree_class members.now)) }
        ensures { IfOk result (λ c. option_map class_value c ≡ nested_left (classes_of self.now (use_of owner) (listed (map tree_class members.now)))) }
    {
        let mut made = Vec::new(alloc);
        for member in members {
            let Some(next) = self.class(alloc, owner, member)? else {
                return Ok(None);
            };
            made.push(next)?;
        }
        NameClass::choice_of(alloc, made)
    }
}
