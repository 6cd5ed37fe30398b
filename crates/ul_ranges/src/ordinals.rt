//! Sets of the numbers below a size. Contracts see a set as its list of flags.
ghost use Rattle.std.specs.Prelude.{◌≡◌, ◌<◌, ◌≤◌, ◌↔◌, ℕ, List, [], ◌∷◌, Bool, true, false, length, IfOk, IfErr, All, IsTrue, replicate};
ghost use Rattle.ul_ranges.specs.Flags.{has, both, either, less, is_apart, is_blank, is_within, set_of, front, first_in, IsNextMember};
ghost use Rattle.ul_ranges.specs.Blocks.{AreBlocksOf};

use crate::forms::Form;
use crate::words::Operation;
use crate::{form_tests, forms};
use std::alloc::{AllocError, Global};
use std::marker::Model;

/// A set of numbers below its size. A set of at most 64 numbers takes no memory, nor does one of a single member; larger ones share
/// their blocks, so that a copy is a count.
#[derive(Drop)]
pub struct Ordinals {
    form: Form,
}

impl Model for Ordinals {
    ghost use Rattle.std.specs.Prelude.{List, Bool};
    ghost use Rattle.ul_ranges.specs.Forms.{flags_in, IsForm};

    ghost Value = { List Bool };

    ghost view = { λ s. flags_in s.form };

    ghost invariant = { λ s. IsForm s.form };
}

impl Ordinals {
    /// The size: each member is below it.
    pub fn size(&self) -> u32
        ensures { result ≡ length self.now }
    {
        forms::size_in(&self.form)
    }

    /// The blocks: block k has bit i exactly where 64k + i is a member, and no bit past the size is set.
    pub fn blocks(&self, alloc: Global) -> Result<Vec<u64>, AllocError>
        ensures { IfOk result (λ v. AreBlocksOf self.now v.items) }
    {
        forms::block_list(alloc, &self.form)
    }

    /// Whether the set has a number; past the size it has none.
    pub fn has(&self, number: u32) -> bool
        ensures { result ≡ has number self.now }
    {
        forms::has_in(&self.form, number)
    }

    /// The first member from a number on, if there is one: so the members are walked in increasing order, in time by blocks.
    pub fn next_from(&self, from: u32) -> Option<u32>
        ensures { IsNextMember self.now from result }
    {
        form_tests::next_in(&self.form, from)
    }

    /// Whether the set has no member.
    pub fn is_empty(&self) -> bool
        ensures { result ≡ is_blank self.now }
    {
        form_tests::is_empty(&self.form)
    }

    /// The first of `order` that is in the set; `None` exactly where none of them is.
    pub fn first_in(&self, order: &Vec<u32>) -> Option<u32>
        ensures { result ≡ first_in order.now.items self.now }
    {
        for k in order {
            if self.has(*k) {
                return Some(*k);
            }
        }
        None
    }

    /// Whether the two are equal, in their sizes too.
    pub fn same(&self, other: &Ordinals) -> bool
        ensures { IsTrue result ↔ (self.now ≡ other.now) }
    {
        self.size() == other.size() && form_tests::same(&self.form, &other.form)
    }

    /// Whether each member is a member of `other`.
    pub fn is_within(&self, other: &Ordinals) -> bool
        requires { length self.now ≡ length other.now }
        ensures { result ≡ is_within self.now other.now }
    {
        form_tests::is_within(&self.form, &other.form)
    }

    /// Whether no number is in both.
    pub fn is_apart(&self, other: &Ordinals) -> bool
        requires { length self.now ≡ length other.now }
        ensures { result ≡ is_apart self.now other.now }
    {
        form_tests::is_apart(&self.form, &other.form)
    }

    /// The members of both.
    pub fn meet(&self, alloc: Global, other: &Ordinals) -> Result<Ordinals, AllocError>
        requires { length self.now ≡ length other.now }
        ensures { IfOk result (λ s. s ≡ both self.now other.now) }
    {
        let form = forms::meet(alloc, &self.form, &other.form)?;
        Ok(Ordinals { form })
    }

    /// The members of either.
    pub fn join(&self, alloc: Global, other: &Ordinals) -> Result<Ordinals, AllocError>
        requires { length self.now ≡ length other.now }
        ensures { IfOk result (λ s. s ≡ either self.now other.now) }
    {
        let form = forms::join(alloc, &self.form, &other.form)?;
        Ok(Ordinals { form })
    }

    /// The members that `other` lacks.
    pub fn less(&self, alloc: Global, other: &Ordinals) -> Result<Ordinals, AllocError>
        requires { length self.now ≡ length other.now }
        ensures { IfOk result (λ s. s ≡ less self.now other.now) }
    {
        let form = forms::less(alloc, &self.form, &other.form)?;
        Ok(Ordinals { form })
    }

    /// An equal set, which shares the blocks.
    pub fn copy(&self, alloc: Global) -> Result<Ordinals, AllocError>
        ensures { IfOk result (λ s. s ≡ self.now) }
    {
        let form = forms::copy(alloc, &self.form)?;
        Ok(Ordinals { form })
    }

    /// Leaves the members of both. It takes no memory where no other set shares the blocks, and after an `Err` the set is as it was.
    pub fn put_meet(&mut self, alloc: Global, other: &Ordinals) -> Result<(), AllocError>
        requires { length self.old ≡ length other.now }
        ensures ok { IfOk result (λ _. self.new ≡ both self.old other.now) }
        ensures err { IfErr result (λ _. self.new ≡ self.old) }
    {
        forms::put(alloc, Operation::Meet, &mut self.form, &other.form)?;
        Ok(())
    }

    /// Adds the members of `other`. It takes no memory where no other set shares the blocks, and after an `Err` the set is as it was.
    pub fn put_join(&mut self, alloc: Global, other: &Ordinals) -> Result<(), AllocError>
        requires { length self.old ≡ length other.now }
        ensures ok { IfOk result (λ _. self.new ≡ either self.old other.now) }
        ensures err { IfErr result (λ _. self.new ≡ self.old) }
    {
        forms::put(alloc, Operation::Join, &mut self.form, &other.form)?;
        Ok(())
    }

    /// Leaves the members that `other` lacks. It takes no memory where no other set shares the blocks, and after an `Err` the set is
    /// as it was.
    pub fn put_less(&mut self, alloc: Global, other: &Ordinals) -> Result<(), AllocError>
        requires { length self.old ≡ length other.now }
        ensures ok { IfOk result (λ _. self.new ≡ less self.old other.now) }
        ensures err { IfErr result (λ _. self.new ≡ self.old) }
    {
        forms::put(alloc, Operation::Less, &mut self.form, &other.form)?;
        Ok(())
    }

    /// The set of one number below `size`. It takes no memory.
    pub fn one(size: u32, member: u32) -> Ordinals
        requires { member < size }
        ensures { result ≡ set_of size (member ∷ []) }
    {
        Ordinals {
            form: forms::one(size, member),
        }
    }

    /// The set of the numbers of a list, each below `size`. A number may stand there more than once.
    pub fn of_list(alloc: Global, size: u32, members: &Vec<u32>) -> Result<Ordinals, AllocError>
        requires { All (λ m. m < size) members.now.items }
        ensures { IfOk result (λ s. s ≡ set_of size members.now.items) }
    {
        let form = forms::of_list(alloc, size, members)?;
        Ok(Ordinals { form })
    }

    /// The set of this size with no member.
    pub fn none(_alloc: Global, size: u32) -> Result<Ordinals, AllocError>
        ensures { IfOk result (λ s. s ≡ replicate size false) }
    {
        Ok(Ordinals {
            form: forms::none(size),
        })
    }

    /// The set of all the numbers below `size`.
    pub fn all(alloc: Global, size: u32) -> Result<Ordinals, AllocError>
        ensures { IfOk result (λ s. s ≡ replicate size true) }
    {
        Ordinals::front(alloc, size, size)
    }

    /// The set, of this size, of the numbers below `count`.
    pub fn front(alloc: Global, size: u32, count: u32) -> Result<Ordinals, AllocError>
        requires { count ≤ size }
        ensures { IfOk result (λ s. s ≡ front size count) }
    {
        let form = forms::front(alloc, size, count)?;
        Ok(Ordinals { form })
    }
}
