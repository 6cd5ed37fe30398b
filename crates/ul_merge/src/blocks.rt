//! Packages of a lock.
ghost use Rattle.std.specs.Prelude.{◌≡◌, IfOk, All, flat_map, map, option_map};
ghost use Rattle.ul_interner.specs.Known.{Knows};
ghost use Rattle.ul_requirement.specs.Truth.{base, with_extra};
ghost use Rattle.ul_index.specs.Catalogs.{requirements};
ghost use Rattle.ul_lock_write.specs.Markers.{edge_marker, extra_markers, package_markers};
ghost use Rattle.ul_sound.specs.Merged.{AreEdgesOf, files_in};
ghost use Rattle.ul_merge.specs.Blocks.{AreMadeExtras, ArePairMembers, AreSources, AreUsers, IsMadeBlock, IsMadeExtra, IsPairGroup, MakesBlock, MakesExtra};
ghost use Rattle.ul_merge.specs.Blocks.{catalog_in, leaves_in, supported_in};
ghost use Rattle.ul_merge.specs.Keys.{pair_of, pick_of};
ghost use Rattle.ul_merge.specs.Made.{AreMade};
ghost use Rattle.ul_merge.specs.Over.{ItemsOrOver, MadeOrOver, OrOver, block_by, extra_by, items_in};
ghost use Rattle.ul_merge.specs.Rows.{member_of};

use crate::edges::{made_edges, truths_of};
use crate::gathering::{Group, groups_of};
use crate::keys::{ExtraKey, PairKey, PickKey};
use crate::members::{Member, base_users, extra_entries};
use crate::numbers::node_number;
use crate::over::{both, with_whole};
use crate::releases::{files_of, release_at, requirements_of};
use crate::sources::Sources;
use crate::targets::{aims_of, uses_of};
use std::alloc::{AllocError, Global};
use std::sync::Wait;
use ul_algebra::Algebra;
use ul_base::owned::{beside, made_from};
use ul_base::{Name, Node};
use ul_lock::{Edge, Edges, Extra, Extras, Locked};
use ul_region::ByExtra;
use ul_requirement::{Release, Requirement};

// The edges of a row, if it was made.
fn edges_in(row: Option<Vec<Edge>>) -> Option<Edges>
    ensures { result ≡ items_in row }
{
    row.map(Edges::of)
}

// The edges of a node at a version; none where not all of their markers are printed.
fn edges_of<R: Wait>(
    rt: &R,
    alloc: Global,
    algebra: &mut Algebra<'_>,
    sources: &Sources<'_>,
    pick: &PickKey<'_>,
    users: &[usize],
    required: &ByExtra<'_>,
) -> Result<Option<Edges>, AllocError>
    requires sources { AreSources algebra.old sources.now }
    requires users { AreUsers sources.now.choices.now (pick_of pick.now) users.now }
    requires required { required.now
        ≡ requirements (catalog_in sources.now) pick.now.node.now.name pick.now.version.now }
    ensures knows { Knows algebra.old algebra.new }
    ensures edges { IfOk result (OrOver (flat_map edge_marker)
        (AreEdgesOf (catalog_in sources.now) (leaves_in sources.now) (supported_in sources.now) (pick_of pick.now))) }
{
    ul_index::laws::eligible_rises();
    ul_requirement::laws::unnamed_never_applies();
    let kept = required.at(alloc, pick.node)?;
    let asked = kept.as_slice();
    let truths = truths_of(rt, alloc, algebra, pick.node, asked)?;
    let aims = aims_of(alloc, asked)?;
    let groups = uses_of(alloc, sources.choices, users, aims.as_slice())?;
    let edges = made_edges(
        rt,
        alloc,
        algebra,
        sources.supported,
        sources.regions,
        truths.as_slice(),
        groups.as_slice(),
    );
    let edges = made_from(made_from(edges, groups), (truths, aims))?;
    Ok(edges_in(edges))
}

// The edges of a package's base; none where not all of their markers are printed.
fn base_edges<R: Wait>(
    rt: &R,
    alloc: Global,
    algebra: &mut Algebra<'_>,
    sources: &Sources<'_>,
    group: &Group<PairKey<'_>, Member<'_>>,
    required: &[Requirement],
) -> Result<Option<Edges>, AllocError>
    requires sources { AreSources algebra.old sources.now }
    requires group { IsPairGroup sources.now.choices.now group.now }
    requires required { required.now
        ≡ requirements (catalog_in sources.now) group.now.key.name.now group.now.key.version.now }
    ensures knows { Knows algebra.old algebra.new }
    ensures edges { IfOk result (OrOver (flat_map edge_marker)
        (AreEdgesOf (catalog_in sources.now) (leaves_in sources.now) (supported_in sources.now)
        (base group.now.key.name.now, group.now.key.version.now))) }
{
    let members: &Vec<Member<'_>> = &group.values;
    let users = base_users(alloc, members.as_slice())?;
    let node = Node {
        name: group.key.name.copy(alloc)?,
        extra: None,
    };
    let pick = PickKey {
        node: &node,
        number: node_number(&node),
        version: group.key.version,
    };
    let edges = edges_of(
        rt,
        alloc,
        algebra,
        sources,
        &pick,
        users.as_slice(),
        &ByExtra::plain(required),
    );
    made_from(edges, (users, node))
}

// An extra of its name and edges, if these were made.
fn whole_extra(
    alloc: Global,
    name: &Name,
    edges: Option<Edges>,
) -> Result<Option<Extra>, AllocError>
    ensures { IfOk result (λ x. x ≡ extra_by name.now edges) }
{
    match edges {
        None => Ok(None),
        Some(edges) => {
            let (out, name) = beside(edges, name.copy(alloc))?;
            Ok(Some(Extra { name, edges: out }))
        }
    }
}

// An extra of a package; none where not all of its markers are printed.
fn extra_of<R: Wait>(
    rt: &R,
    alloc: Global,
    algebra: &mut Algebra<'_>,
    sources: &Sources<'_>,
    pair: &PairKey<'_>,
    group: &Group<ExtraKey<'_>, usize>,
    required: &ByExtra<'_>,
) -> Result<Option<Extra>, AllocError>
    requires sources { AreSources algebra.old sources.now }
    requires users { AreUsers sources.now.choices.now
        (with_extra pair.now.name.now group.now.key.name.now, pair.now.version.now) group.now.values.items }
    requires required { required.now ≡ requirements (catalog_in sources.now) pair.now.name.now pair.now.version.now }
    ensures knows { Knows algebra.old algebra.new }
    ensures extra { IfOk result (OrOver extra_markers
        (IsMadeExtra (catalog_in sources.now) (leaves_in sources.now) (supported_in sources.now)
        (pair_of pair.now) group.now.key.name.now)) }
{
    let users: &Vec<usize> = &group.values;
    let name = pair.name.copy(alloc)?;
    let extra = group.key.name.copy(alloc)?;
    let node = Node {
        name,
        extra: Some(extra),
    };
    let pick = PickKey {
        node: &node,
        number: node_number(&node),
        version: pair.version,
    };
    let edges = edges_of(
        rt,
        alloc,
        algebra,
        sources,
        &pick,
        users.as_slice(),
        required,
    );
    let edges = made_from(edges, node)?;
    let extra = whole_extra(alloc, group.key.name, edges)?;
    Ok(extra)
}

// The extras of a package that leaves chose, each with the leaves' places; none where not all of their markers are
// printed.
fn made_extras<R: Wait>(
    rt: &R,
    alloc: Global,
    algebra: &mut Algebra<'_>,
    sources: &Sources<'_>,
    pair: &PairKey<'_>,
    groups: &[Group<ExtraKey<'_>, usize>],
    required: &ByExtra<'_>,
) -> Result<Option<Vec<Extra>>, AllocError>
    requires sources { AreSources algebra.old sources.now }
    requires users { All (λ g. AreUsers sources.now.choices.now
        (with_extra pair.now.name.now g.key.name.now, pair.now.version.now) g.values.items) groups.now }
    requires required { required.now ≡ requirements (catalog_in sources.now) pair.now.name.now pair.now.version.now }
    ensures knows { Knows algebra.old algebra.new }
    ensures extras { IfOk result (ItemsOrOver extra_markers
        (AreMade (MakesExtra (catalog_in sources.now) (leaves_in sources.now) (supported_in sources.now)
        (pair_of pair.now)) groups.now)) }
{
    let mut extras = Some(Vec::with_capacity(alloc, groups.len())?);
    for group in groups {
        let extra = extra_of(rt, alloc, algebra, sources, pair, group, required);
        extras = with_whole(extras, extra)?;
    }
    Ok(extras)
}

// The extras of a row, if it was made.
fn extras_in(row: Option<Vec<Extra>>) -> Option<Extras>
    ensures { result ≡ items_in row }
{
    row.map(Extras::of)
}

// The extras of a package; none where not all of their markers are printed.
fn extras_of<R: Wait>(
    rt: &R,
    alloc: Global,
    algebra: &mut Algebra<'_>,
    sources: &Sources<'_>,
    group: &Group<PairKey<'_>, Member<'_>>,
    required: &[Requirement],
) -> Result<Option<Extras>, AllocError>
    requires sources { AreSources algebra.old sources.now }
    requires group { IsPairGroup sources.now.choices.now group.now }
    requires required { required.now
        ≡ requirements (catalog_in sources.now) group.now.key.name.now group.now.key.version.now }
    ensures knows { Knows algebra.old algebra.new }
    ensures extras { IfOk result (OrOver (flat_map extra_markers)
        (AreMadeExtras (catalog_in sources.now) (leaves_in sources.now) (supported_in sources.now)
        (pair_of group.now.key))) }
{
    let members: &Vec<Member<'_>> = &group.values;
    let entries = extra_entries(alloc, members.as_slice())?;
    let groups = groups_of(alloc, entries)?;
    let required = ByExtra::of(alloc, required, groups.len())?;
    let extras = made_extras(
        rt,
        alloc,
        algebra,
        sources,
        &group.key,
        groups.as_slice(),
        &required,
    );
    let extras = made_from(extras, (groups, required))?;
    Ok(extras_in(extras))
}

// A package of a release, with its edges and extras.
fn locked_with(
    alloc: Global,
    key: &PairKey<'_>,
    release: Option<&Release>,
    edges: Edges,
    extras: Extras,
) -> Result<Locked, AllocError>
    ensures name { IfOk result (λ b. b.name ≡ key.now.name.now) }
    ensures version { IfOk result (λ b. b.version ≡ key.now.version.now) }
    ensures files { IfOk result (λ b. b.files ≡ files_in (option_map (λ r. r.now) release.entry)) }
    ensures edges { IfOk result (λ b. b.edges ≡ edges) }
    ensures extras { IfOk result (λ b. b.extras ≡ extras) }
{
    let (rows, files) = beside((edges, extras), files_of(alloc, release))?;
    let (listed, name) = beside((rows, files), key.name.copy(alloc))?;
    let (named, version) = beside((listed, name), key.version.copy(alloc))?;
    let (listed, name) = named;
    let (rows, files) = listed;
    let (edges, extras) = rows;
    Ok(Locked {
        name,
        version,
        files,
        edges,
        extras,
    })
}

// A package of a release, with its edges and extras, if these were made.
fn whole_block(
    alloc: Global,
    key: &PairKey<'_>,
    release: Option<&Release>,
    rows: Option<(Edges, Extras)>,
) -> Result<Option<Locked>, AllocError>
    ensures { IfOk result (λ b. b ≡ block_by key.now.name.now key.now.version.now
        (files_in (option_map (λ r. r.now) release.entry)) rows) }
{
    match rows {
        None => Ok(None),
        Some((edges, extras)) => {
            let block = locked_with(alloc, key, release, edges, extras)?;
            Ok(Some(block))
        }
    }
}

// A package; none where not all of its markers are printed.
#[tactic(auto, unfolding(ul_index::specs::Catalogs::requirements))]
fn block_of<R: Wait>(
    rt: &R,
    alloc: Global,
    algebra: &mut Algebra<'_>,
    sources: &Sources<'_>,
    group: &Group<PairKey<'_>, Member<'_>>,
) -> Result<Option<Locked>, AllocError>
    requires sources { AreSources algebra.old sources.now }
    requires group { IsPairGroup sources.now.choices.now group.now }
    ensures knows { Knows algebra.old algebra.new }
    ensures block { IfOk result (OrOver package_markers
        (IsMadeBlock (catalog_in sources.now) (leaves_in sources.now) (supported_in sources.now)
        (pair_of group.now.key))) }
{
    let key = &group.key;
    let release = release_at(sources.catalog, key.name, key.version);
    let required = requirements_of(release);
    let edges = base_edges(rt, alloc, algebra, sources, group, required)?;
    let extras = extras_of(rt, alloc, algebra, sources, group, required);
    let (out, extras) = beside(edges, extras)?;
    let block = whole_block(alloc, key, release, both(out, extras))?;
    Ok(block)
}

/// The packages that leaves chose, in order; none where not all of their markers are printed.
pub(crate) fn made_blocks<R: Wait>(
    rt: &R,
    alloc: Global,
    algebra: &mut Algebra<'_>,
    sources: &Sources<'_>,
    groups: &[Group<PairKey<'_>, Member<'_>>],
) -> Result<Option<Vec<Locked>>, AllocError>
    requires sources { AreSources algebra.old sources.now }
    requires groups { All (IsPairGroup sources.now.choices.now) groups.now }
    ensures knows { Knows algebra.old algebra.new }
    ensures blocks { IfOk result (MadeOrOver
        (AreMade (MakesBlock (catalog_in sources.now) (leaves_in sources.now) (supported_in sources.now)) groups.now)) }
{
    let mut blocks = Some(Vec::with_capacity(alloc, groups.len())?);
    for group in groups {
        let block = block_of(rt, alloc, algebra, sources, group);
        blocks = with_whole(blocks, block)?;
    }
    Ok(blocks)
}
