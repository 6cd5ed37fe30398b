//! Which leaves chose which nodes, by packages.
ghost use Rattle.std.specs.Prelude.{◌≡◌, ◌++◌, IfOk, OnOk, map, option_map};
ghost use Rattle.ul_merge.specs.Members.{AreMembers};
ghost use Rattle.ul_merge.specs.Rows.{all_members, base_row, base_rows, chosen_member, extra_entry, extra_row, extra_rows, leaf_members, member_of, member_row};

use crate::choices::Choices;
use crate::gathering::{Entry, Group, groups_of};
use crate::keys::{ExtraKey, PairKey};
use crate::numbers::node_number;
use std::alloc::{AllocError, Global};
use ul_base::Node;
use ul_version::Version;

/// A node that the leaf at a place chose.
#[derive(Clone, Copy, Drop)]
pub(crate) struct Member<'a> {
    pub(crate) node: &'a Node,
    pub(crate) leaf: usize,
}

// Adds a node, if it is chosen.
fn put_member<'a>(
    entries: &mut Vec<Entry<PairKey<'a>, Member<'a>>>,
    node: &'a Node,
    version: Option<&'a Version>,
    leaf: usize,
) -> Result<(), AllocError>
    ensures { OnOk result (map member_row entries.new.items
        ≡ map member_row entries.old.items ++ chosen_member node.now leaf (option_map (λ v. v.now) version.entry)) }
{
    if let Some(version) = version {
        let key = PairKey {
            name: &node.name,
            version,
        };
        entries.push(Entry {
            key,
            value: Member { node, leaf },
        })?;
    }
    Ok(())
}

// Adds what a leaf chose.
fn put_members<'a>(
    entries: &mut Vec<Entry<PairKey<'a>, Member<'a>>>,
    choices: &Choices<'a>,
    leaf: usize,
) -> Result<(), AllocError>
    ensures { OnOk result (map member_row entries.new.items
        ≡ map member_row entries.old.items ++ leaf_members leaf choices.now choices.now) }
{
    let picks = choices.picks();
    for pick in picks {
        let version = choices.version(&pick.0, node_number(&pick.0));
        put_member(entries, &pick.0, version, leaf)?;
    }
    Ok(())
}

// What all leaves chose.
fn member_entries<'a>(
    alloc: Global,
    choices: &[Choices<'a>],
) -> Result<Vec<Entry<PairKey<'a>, Member<'a>>>, AllocError>
    ensures { IfOk result (λ v. map member_row v.items ≡ all_members 0 choices.now) }
{
    let mut entries = Vec::new(alloc);
    for leaf in 0..choices.len() {
        put_members(&mut entries, &choices[leaf], leaf)?;
    }
    Ok(entries)
}

/// What all leaves chose, by packages.
pub(crate) fn members_of<'a>(
    alloc: Global,
    choices: &[Choices<'a>],
) -> Result<Vec<Group<PairKey<'a>, Member<'a>>>, AllocError>
    ensures { IfOk result (λ v. AreMembers choices.now v.items) }
{
    let entries = member_entries(alloc, choices)?;
    groups_of(alloc, entries)
}

// Adds the leaf of a member that is a base.
fn put_base(users: &mut Vec<usize>, member: &Member<'_>) -> Result<(), AllocError>
    ensures { OnOk result (users.new.items
        ≡ users.old.items ++ base_row member.now.node.now.extra member.now.leaf) }
{
    if member.node.extra.is_none() {
        users.push(member.leaf)?;
    }
    Ok(())
}

/// The leaves that chose the base.
pub(crate) fn base_users(alloc: Global, members: &[Member<'_>]) -> Result<Vec<usize>, AllocError>
    ensures { IfOk result (λ v. v.items ≡ base_rows (map member_of members.now)) }
{
    let mut users = Vec::new(alloc);
    for member in members {
        put_base(&mut users, member)?;
    }
    Ok(users)
}

// Adds the leaf of a member that is an extra.
fn put_extra<'a>(
    entries: &mut Vec<Entry<ExtraKey<'a>, usize>>,
    member: &Member<'a>,
) -> Result<(), AllocError>
    ensures { OnOk result (map extra_entry entries.new.items
        ≡ map extra_entry entries.old.items ++ extra_row member.now.node.now.extra member.now.leaf) }
{
    if let Some(name) = &member.node.extra {
        entries.push(Entry {
            key: ExtraKey { name },
            value: member.leaf,
        })?;
    }
    Ok(())
}

/// The leaves that chose an extra, by the extras' names.
pub(crate) fn extra_entries<'a>(
    alloc: Global,
    members: &[Member<'a>],
) -> Result<Vec<Entry<ExtraKey<'a>, usize>>, AllocError>
    ensures { IfOk result (λ v. map extra_entry v.items ≡ extra_rows (map member_of members.now)) }
{
    let mut entries = Vec::new(alloc);
    for member in members {
        put_extra(&mut entries, member)?;
    }
    Ok(entries)
}
