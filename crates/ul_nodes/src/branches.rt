//! Branches that are being made, those left out that say what stands already.
ghost use Rattle.std.specs.Prelude.{◌≡◌, IfOk, All};
ghost use Rattle.ul_nodes.specs.Plain.{Plain};
ghost use Rattle.ul_nodes.specs.Reduced.{IsReduced};
ghost use Rattle.ul_nodes.specs.Apply.{same, reduced_branches};
ghost use Rattle.ul_nodes.specs.Rows.{made_view, parts_view, stands, IsAdded, KeepsKeys, KeepsLevel};

use crate::level::Key;
use crate::results::standing;
use std::alloc::{AllocError, Global};

/// How equal parts of nodes are told.
pub trait Sameness {
    type Part: Drop;

    ghost tree: { Self.Part → Plain };

    // what must be known of a part
    ghost known: { Self → Self.Part → Type 0 };

    /// Whether two parts stand for equal trees.
    fn is_same(&self, left: &Self::Part, right: &Self::Part) -> bool
        requires left_reduced { IsReduced (tree left.now) }
        requires right_reduced { IsReduced (tree right.now) }
        requires left_known { known self.now left.now }
        requires right_known { known self.now right.now }
        ensures { result ≡ same (tree left.now) (tree right.now) };
}

/// A branch more, unless its part is the one that stands.
pub fn add<'a, Parts: Sameness>(
    parts: &Parts,
    made: &mut Vec<(Key<'a>, Parts::Part)>,
    other: &Parts::Part,
    carried: bool,
    key: Key<'a>,
    next: Parts::Part,
) -> Result<(), AllocError>
    requires next_reduced { IsReduced (Parts.tree next) }
    requires stands_reduced { IsReduced (stands carried (made_view Parts.tree made.old.items) (Parts.tree other.now)) }
    requires next_known { Parts.known parts.now next }
    requires other_known { Parts.known parts.now other.now }
    requires made_known { All (λ e. Parts.known parts.now e.1) made.old.items }
    ensures made { IfOk result (λ u.
        IsAdded Parts.tree carried other.now key.entry next made.old.items made.new.items) }
    ensures kinds { IfOk result (λ u. KeepsKeys key.entry made.old.items made.new.items) }
    ensures known { IfOk result (λ u. All (λ e. Parts.known parts.now e.1) made.new.items) }
{
    if parts.is_same(&next, standing(made, other, carried)) {
        return Ok(());
    }
    made.push((key, next))?;
    Ok(())
}

/// The branches of keys and parts, those left out that say what stands already.
pub fn reduced_branches<'a, Parts: Sameness>(
    parts: &Parts,
    alloc: Global,
    rows: Vec<(Key<'a>, Parts::Part)>,
    other: &Parts::Part,
    carried: bool,
) -> Result<Vec<(Key<'a>, Parts::Part)>, AllocError>
    requires rows_reduced { All (λ e. IsReduced (Parts.tree e.1)) rows.items }
    requires other_reduced { IsReduced (Parts.tree other.now) }
    requires rows_known { All (λ e. Parts.known parts.now e.1) rows.items }
    requires other_known { Parts.known parts.now other.now }
    ensures branches { IfOk result (λ bs. made_view Parts.tree bs.items
        ≡ reduced_branches carried (parts_view Parts.tree rows.entry.items) (Parts.tree other.now)) }
    ensures kinds { IfOk result (λ bs. KeepsLevel rows.entry.items bs.items) }
    ensures known { IfOk result (λ bs. All (λ e. Parts.known parts.now e.1) bs.items) }
{
    let mut made: Vec<(Key<'a>, Parts::Part)> = Vec::new(alloc);
    for (key, part) in rows {
        add::<Parts>(parts, &mut made, other, carried, key, part)?;
    }
    Ok(made)
}
