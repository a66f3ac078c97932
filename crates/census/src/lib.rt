//! How many individuals of each genotype live.
#![tactic(auto, unfolding(crate::specs::Census::living_of, crate::specs::Census::spare_of))]

ghost use Rattle.std.specs.Prelude.{◌≡◌, ◌==◌, ◌+◌, ◌<◌, ◌≤◌, ℕ, OnOk};
ghost use Rattle.tierra_model.specs.declared.limits.TheConstants.{COUNT_END};
ghost use Rattle.tierra_model.specs.Counting.{one_if};

use std::alloc::Global;
use std::collections::HashMap;
use tierra_model::OutOfMemory;

/// The numbers of the living, by the number of their genotype.
#[derive(Debug, Drop)]
pub struct Census {
    counts: HashMap<u64, u64>,
}

impl Census {
    ghost use Rattle.census.specs.Census.{living_of, spare_of};

    /// Nobody lives.
    pub fn new(alloc: Global) -> Census
        ensures { (g : ℕ) → living_of result g ≡ 0 }
    {
        Census {
            counts: HashMap::new(alloc),
        }
    }

    /// Takes the memory that `more` births may need.
    pub fn reserve(&mut self, more: u32) -> Result<(), OutOfMemory>
        ensures same { (g : ℕ) → living_of self.new g ≡ living_of self.old g }
        ensures ok { OnOk result (more ≤ spare_of self.new) }
        ensures room { spare_of self.old ≤ spare_of self.new }
    {
        self.counts.reserve(more as usize)
    }

    /// One more lives.
    pub fn born(&mut self, genotype: u64)
        requires room { 0 < spare_of self.old }
        requires count { living_of self.old genotype < COUNT_END }
        ensures living { (g : ℕ) → living_of self.new g ≡ living_of self.old g + one_if (genotype == g) }
        ensures room { spare_of self.old ≤ spare_of self.new + 1 }
    {
        let count = self.living(genotype) + 1;
        let put: Result<_, _> = self.counts.insert(genotype, count);
        let _old = put.unwrap();
    }

    /// One of the living dies.
    pub fn died(&mut self, genotype: u64)
        requires { 0 < living_of self.old genotype }
        ensures living { (g : ℕ) → living_of self.old g ≡ living_of self.new g + one_if (genotype == g) }
        ensures room { spare_of self.old ≤ spare_of self.new }
    {
        let count = self.counts.get_mut(&genotype).unwrap();
        *count -= 1;
        let left = *count;
        if left == 0 {
            let _none = self.counts.remove(&genotype);
        }
    }

    /// How many live.
    pub fn living(&self, genotype: u64) -> u64
        ensures { result ≡ living_of self.now genotype }
    {
        self.counts.get(&genotype).copied().unwrap_or(0)
    }
}

#[cfg(test)]
mod tests {
    use super::*;
    use std::test::Fail;

    #[test]
    fn living_are_births_less_deaths(rt: HostRuntime) -> Result<(), Fail> {
        let mut census = Census::new(rt.alloc());
        assert_eq!(rt; census.living(7), 0);
        census.reserve(4)?;
        census.born(7);
        census.born(u64::MAX);
        census.born(7);
        census.born(0);
        assert_eq!(rt; census.living(7), 2);
        assert_eq!(rt; census.living(u64::MAX), 1);
        assert_eq!(rt; census.living(1), 0);
        census.died(7);
        census.died(0);
        assert_eq!(rt; census.living(7), 1);
        assert_eq!(rt; census.living(0), 0);
        census.died(7);
        assert_eq!(rt; census.living(7), 0);
        assert_eq!(rt; census.living(u64::MAX), 1);
        Ok(())
    }
}
