// The numbers of tokens, by their places.
ghost use Rattle.std.specs.Prelude.{◌≡◌, ◌<◌, length, IfOk};
ghost use Rattle.tree_graph.specs.Numbers.{number_at};
ghost use Rattle.tree_graph.specs.Ranks.{paired, AreNumbers, AreRanks, IsByNumber};

use std::alloc::{AllocError, Global};
use std::marker::Model;

/// The places of a tree's `element` tokens, in the order of the tree, with the tokens' numbers: each has as many as precede it by place, and
/// of several at one place those that precede it in the tree.
#[derive(Drop)]
pub struct Tokens {
    places: Vec<usize>,
    ranks: Vec<(usize, usize)>,
    numbers: Vec<usize>,
}

impl Model for Tokens {
    ghost use Rattle.std.specs.Prelude.{ℕ, List};
    ghost use Rattle.tree_graph.specs.Ranks.{AreNumbers, AreRanks};

    ghost Value = { List ℕ };

    ghost view = { λ t. t.places.items };

    ghost invariant = { λ t. AreRanks t.places.items t.ranks.items × AreNumbers t.places.items t.numbers.items };
}

// Each place with its position.
fn paired(alloc: Global, places: &[usize]) -> Result<Vec<(usize, usize)>, AllocError>
    ensures { IfOk result (λ r. r.items ≡ paired 0 places.now) }
{
    let mut pairs = Vec::new(alloc);
    for position in 0..places.len() {
        pairs.push((places[position], position))?;
    }
    Ok(pairs)
}

// The places with their positions, in the order of their numbers.
fn ranked(alloc: Global, places: &[usize]) -> Result<Vec<(usize, usize)>, AllocError>
    ensures { IfOk result (λ r. AreRanks places.now r.items) }
{
    let mut pairs = paired(alloc, places)?;
    pairs.sort()?;
    Ok(pairs)
}

// The number of each position.
fn numbered(
    alloc: Global,
    places: &[usize],
    ranks: &[(usize, usize)],
) -> Result<Vec<usize>, AllocError>
    requires { AreRanks places.now ranks.now }
    ensures { IfOk result (λ r. AreNumbers places.now r.items) }
{
    let mut numbers = vec![in alloc; 0; places.len()]?;
    for number in 0..ranks.len() {
        let (_, position) = ranks[number];
        numbers[position] = number;
    }
    Ok(numbers)
}

impl Tokens {
    /// The tokens at these places, in the order of the tree.
    pub fn new(alloc: Global, places: Vec<usize>) -> Result<Tokens, AllocError>
        ensures { IfOk result (λ t. t ≡ places.items) }
    {
        let ranks = ranked(alloc, places.as_slice())?;
        let numbers = numbered(alloc, places.as_slice(), ranks.as_slice())?;
        Ok(Tokens {
            places,
            ranks,
            numbers,
        })
    }

    /// How many there are.
    pub fn len(&self) -> usize
        ensures { result ≡ length self.now }
    {
        self.places.len()
    }

    /// The number of the token at the position in the tree, counted from 0.
    pub fn number(&self, position: usize) -> usize
        requires { position < length self.now }
        ensures value { result ≡ number_at self.now position }
        ensures within { result < length self.now }
    {
        self.numbers[position]
    }

    /// What is known of the tokens by their positions in the tree, such as their nodes, in the order of their numbers.
    pub fn by_number(&self, alloc: Global, elements: Vec<usize>) -> Result<Vec<usize>, AllocError>
        requires { length elements.items ≡ length self.now }
        ensures { IfOk result (λ r. IsByNumber self.now elements.items r.items) }
    {
        let mut ordered = Vec::new(alloc);
        for (_, position) in &self.ranks {
            ordered.push(elements[*position])?;
        }
        Ok(ordered)
    }
}
