//! The genotypes that ever lived, in the order of first birth.

ghost use Rattle.std.specs.Prelude.{◌≡◌, ◌==◌, ◌++◌, ◌∷◌, ◌+◌, ◌<◌, ◌≤◌, ◌^◌, [], IfSome, List, None, OnOk, length, nat_eq, unwrap_or, ℕ};
ghost use Rattle.std.specs.HashMap.{get, spare as map_spare};
ghost use Rattle.tierra_model.specs.declared.limits.TheConstants.{COUNT_END, MOST_SIZE};
ghost use Rattle.tierra_model.specs.Counting.{one_if};
ghost use Rattle.tierra_model.specs.World.{genotype_at};
ghost use Rattle.tierra_model.specs.Individuals.{genotype_number, with_effort, with_effort_of, with_individual, with_one_more};
ghost use Rattle.tierra_model.specs.Genebank.{name_of, number_before};
ghost use Rattle.tierra_model.specs.Ranges.{IsCode};
ghost use Rattle.genotyper.specs.Genotypes.{genotype_of, genotypes_of, new_genotype};

use indexmap::IndexMap;
use std::alloc::Global;
use std::collections::HashMap;
use std::marker::Model;
use tierra_model::{Code, Effort, Name, OutOfMemory};

/// What is kept of a genotype beside its code.
#[derive(Clone, Copy, Drop, Debug)]
struct Details {
    parent: Option<u64>,
    first_quantum: u64,
    total: u64,
    first_effort: Option<Effort>,
    second_effort: Option<Effort>,
    /// How many genotypes of the size of its code are before it.
    rank: u64,
}

impl Details {
    /// These details with one more individual.
    fn raised(self) -> Details
        requires { self.total < COUNT_END }
        ensures raised { result ≡ record self { total = self.total + 1 } }
    {
        Details {
            total: self.total + 1,
            ..self
        }
    }

    /// After daughter number `bred` of a mother that has the genotype.
    fn noted(self, bred: u64, effort: Effort) -> Details
        ensures noted { (code : List ℕ)
            → genotype_of (code, result) ≡ with_effort bred effort (genotype_of (code, self)) }
        ensures rank { result.rank ≡ self.rank }
    {
        match bred {
            1 => Details {
                first_effort: self.first_effort.or(Some(effort)),
                ..self
            },
            2 => Details {
                second_effort: self.second_effort.or(Some(effort)),
                ..self
            },
            _ => self,
        }
    }
}

/// The genotypes, numbered from 0 in the order of first birth. Room is reserved first, so that births take no memory.
#[derive(Debug, Drop)]
pub struct Genotypes {
    entries: IndexMap<Code, Details>,
    /// How many genotypes there are of each size.
    sizes: HashMap<u32, u64>,
}

impl Model for Genotypes {
    ghost use Rattle.std.specs.Prelude.{min, nat_eq, unwrap_or};
    ghost use Rattle.std.specs.HashMap.{get, spare as map_spare};
    ghost use Rattle.genotyper.specs.Genotypes.{GenotypeFields, IsRanked, genotypes_of};

    ghost Value = { GenotypeFields };

    ghost view = { λ g. record {
      genotypes = genotypes_of g.entries.entries;
      spare = min (map_spare g.entries) (map_spare g.sizes);
    } };

    ghost invariant = { λ g. IsRanked g.entries.entries (λ size. unwrap_or (get nat_eq g.sizes size) 0) };
}

impl Genotypes {
    /// None yet.
    pub fn new(alloc: Global) -> Genotypes
        ensures { result.genotypes ≡ [] }
    {
        Genotypes {
            entries: IndexMap::new(alloc),
            sizes: HashMap::new(alloc),
        }
    }

    /// Takes the memory that `more` births may need.
    pub fn reserve(&mut self, more: u32) -> Result<(), OutOfMemory>
        ensures same { self.new.genotypes ≡ self.old.genotypes }
        ensures ok { OnOk result (more ≤ self.new.spare) }
        ensures room { self.old.spare ≤ self.new.spare }
    {
        self.entries.reserve(more as usize)?;
        self.sizes.reserve(more as usize)
    }

    /// How many there are.
    pub fn len(&self) -> u64
        ensures { result ≡ length self.now.genotypes }
    {
        self.entries.len() as u64
    }

    /// The number of a code's genotype, if there is one.
    #[tactic(auto, using(crate::proofs::Births::genotype_number_is_position))]
    pub fn number_of(&self, code: &Code) -> Option<u64>
        ensures number { result ≡ genotype_number code.now self.now.genotypes }
        ensures there { IfSome result (λ number. number < length self.now.genotypes) }
    {
        let place = self.entries.get_index_of(code)?;
        Some(place as u64)
    }

    fn entry(&self, number: u64) -> (&Code, &Details)
        requires { number < length self.now.genotypes }
        ensures genotype { genotype_at self.now.genotypes number ≡ genotype_of (result.0.now, result.1.now) }
        ensures rank { result.1.now.rank ≡ number_before (length result.0.now) self.now.genotypes number }
        ensures short { length result.0.now ≤ MOST_SIZE }
    {
        self.entries.get_index(number as usize).unwrap()
    }

    /// The name of a genotype.
    pub fn name_of(&self, number: u64) -> Name
        requires { number < length self.now.genotypes }
        ensures { result ≡ name_of self.now.genotypes number }
    {
        let (code, details) = self.entry(number);
        Name {
            size: code.items.len() as u32,
            rank: details.rank,
        }
    }

    /// How many individuals ever had the genotype.
    pub fn total(&self, number: u64) -> u64
        requires { number < length self.now.genotypes }
        ensures { result ≡ (genotype_at self.now.genotypes number).total }
    {
        let (_, details) = self.entry(number);
        details.total
    }

    /// The code of a genotype.
    pub fn code_of(&self, number: u64) -> &Code
        requires { number < length self.now.genotypes }
        ensures { result.now ≡ (genotype_at self.now.genotypes number).code }
    {
        let (code, _) = self.entry(number);
        code
    }

    /// The genotype of the mother of a genotype's first individual, or none if that individual was inoculated.
    pub fn parent_of(&self, number: u64) -> Option<u64>
        requires { number < length self.now.genotypes }
        ensures { result ≡ (genotype_at self.now.genotypes number).parent }
    {
        let (_, details) = self.entry(number);
        details.parent
    }

    /// The quantum of a genotype's first birth, or 0 if its first individual was inoculated.
    pub fn first_quantum(&self, number: u64) -> u64
        requires { number < length self.now.genotypes }
        ensures { result ≡ (genotype_at self.now.genotypes number).first_quantum }
    {
        let (_, details) = self.entry(number);
        details.first_quantum
    }

    /// The effort that was noted first for a first daughter of a mother with the genotype.
    pub fn first_effort(&self, number: u64) -> Option<Effort>
        requires { number < length self.now.genotypes }
        ensures { result ≡ (genotype_at self.now.genotypes number).first_effort }
    {
        let (_, details) = self.entry(number);
        details.first_effort
    }

    /// The effort that was noted first for a second daughter of a mother with the genotype.
    pub fn second_effort(&self, number: u64) -> Option<Effort>
        requires { number < length self.now.genotypes }
        ensures { result ≡ (genotype_at self.now.genotypes number).second_effort }
    {
        let (_, details) = self.entry(number);
        details.second_effort
    }

    /// Notes what daughter number `bred` cost her mother, who has the genotype. An effort noted before stays, and
    /// daughters after the second are not noted.
    #[tactic(auto, using(crate::proofs::Writes::written))]
    pub fn note_effort(&mut self, number: u64, bred: u64, effort: Effort)
        requires { number < length self.old.genotypes }
        ensures genotypes { self.new.genotypes ≡ with_effort_of number bred effort self.old.genotypes }
        ensures room { self.new.spare ≡ self.old.spare }
    {
        let details = self.entries.get_index_mut(number as usize).unwrap();
        *details = details.noted(bred, effort);
    }

    /// Counts an individual, born or inoculated in quantum `q`, and gives the number of its genotype. The parent is the
    /// genotype of its mother, or none if it was inoculated; it is kept if the code is new.
    #[tactic(auto, using(crate::proofs::Births::individuals))]
    pub fn note_birth(&mut self, code: Code, parent: Option<u64>, q: u64) -> u64
        requires room { 0 < self.old.spare }
        requires code { IsCode code }
        requires count { IfSome (genotype_number code self.old.genotypes)
            (λ k. (genotype_at self.old.genotypes k).total < COUNT_END) }
        ensures genotypes { self.new.genotypes ≡ (with_individual self.old.genotypes code parent q).0 }
        ensures number { result ≡ (with_individual self.old.genotypes code parent q).1 }
        ensures room { self.old.spare ≤ self.new.spare + 1 }
    {
        match self.number_of(&code) {
            Some(number) => {
                self.note_again(number);
                number
            }
            None => self.enter_with(code, parent, q, 1),
        }
    }

    #[tactic(auto, using(crate::proofs::Births::again))]
    fn note_again(&mut self, number: u64)
        requires there { number < length self.old.genotypes }
        requires count { (genotype_at self.old.genotypes number).total < COUNT_END }
        ensures genotypes { self.new.genotypes ≡ with_one_more number self.old.genotypes }
        ensures room { self.new.spare ≡ self.old.spare }
    {
        let details = self.entries.get_index_mut(number as usize).unwrap();
        *details = details.raised();
    }

    /// Adds a genotype that had `total` individuals after all others, and gives its number.
    #[tactic(auto, using(crate::proofs::Births::entered))]
    pub fn enter_with(&mut self, code: Code, parent: Option<u64>, q: u64, total: u64) -> u64
        requires room { 0 < self.old.spare }
        requires code { IsCode code }
        requires new { genotype_number code self.old.genotypes ≡ None }
        ensures genotypes { self.new.genotypes ≡ self.old.genotypes ++ new_genotype code parent q total ∷ [] }
        ensures number { result ≡ length self.old.genotypes }
        ensures room { self.old.spare ≤ self.new.spare + 1 }
    {
        let number = self.entries.len() as u64;
        let rank = count_one(&mut self.sizes, code.items.len() as u32);
        let details = Details {
            parent,
            first_quantum: q,
            total,
            first_effort: None,
            second_effort: None,
            rank,
        };
        put_last(&mut self.entries, code, details);
        number
    }
}

/// Counts one more genotype of the size, and gives how many there were before.
fn count_one(sizes: &mut HashMap<u32, u64>, size: u32) -> u64
    requires room { 0 < map_spare sizes.old }
    requires count { unwrap_or (get nat_eq sizes.old size) 0 < 2 ^ 63 }
    ensures before { result ≡ unwrap_or (get nat_eq sizes.old size) 0 }
    ensures counts { (s : ℕ)
        → unwrap_or (get nat_eq sizes.new s) 0 ≡ unwrap_or (get nat_eq sizes.old s) 0 + one_if (size == s) }
    ensures room { map_spare sizes.old ≤ map_spare sizes.new + 1 }
{
    let count = sizes.get(&size).copied().unwrap_or(0);
    let put: Result<_, _> = sizes.insert(size, count + 1);
    let _old = put.unwrap();
    count
}

/// Adds a new code after all others.
#[tactic(auto, using(crate::proofs::Births::insert_entry_behind))]
fn put_last(entries: &mut IndexMap<Code, Details>, code: Code, details: Details)
    requires room { 0 < map_spare entries.old }
    requires new { genotype_number code (genotypes_of entries.old.entries) ≡ None }
    ensures entries { entries.new.entries ≡ entries.old.entries ++ (code, details) ∷ [] }
    ensures room { map_spare entries.old ≤ map_spare entries.new + 1 }
{
    let put: Result<_, _> = entries.insert(code, details);
    let _none = put.unwrap();
}
