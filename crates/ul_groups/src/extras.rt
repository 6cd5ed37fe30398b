//! Projects whose groups are extras.

ghost use Rattle.std.specs.List.Sorted.{IsStrictlySortedBy};
ghost use Rattle.std.specs.Prelude.{◌≡◌, ◌++◌, ◌-◌, IfOk, OnOk, drop, fold, length, map, sum, take, zip};
ghost use Rattle.std.specs.Vec.Iter.{into_iter_items};
ghost use Rattle.ul_base.specs.Names.{name_cmp};
ghost use Rattle.ul_project.specs.Extras as Extras;
ghost use Rattle.ul_project.specs.Lists.{by_name, names_of, put_list};
ghost use Rattle.ul_groups.specs.Answers.{Gives};
ghost use Rattle.ul_groups.specs.Expanded as Expanded;
ghost use Rattle.ul_groups.specs.GroupMaps.{groups_in};
ghost use Rattle.ul_groups.specs.Opened.{AreNamed};

use crate::copies::own_requirements;
use crate::expansion::{group_list, groups_by_name};
use crate::name_lists::Requirements;
use std::alloc::{AllocError, Global};
use std::collections::BTreeMap;
use ul_base::Name;
use ul_base::owned::{beside, with_made, with_one};
use ul_project::{Group, Project, ProjectFault, group_extra, of_extra};
use ul_ranges::SharedList;
use ul_requirement::{Package, Release, Requirement};

// The requirements of an extra, as the project's.
fn list_of_extra(
    alloc: Global,
    name: &Name,
    requirements: Vec<Requirement>,
) -> Result<Vec<Requirement>, AllocError>
    ensures { IfOk result (λ v. v.items ≡ map (Extras.of_extra name.now) requirements.items) }
{
    let mut list = Vec::new(alloc);
    for requirement in requirements {
        list = with_made(list, of_extra(alloc, name, requirement))?;
    }
    Ok(list)
}

// The list of a group, under the extra that the group becomes.
fn extra_list<'a>(
    alloc: Global,
    map: &BTreeMap<Name, &'a Group>,
    group: &'a Group,
) -> Result<(Name, Requirements), ProjectFault>
    requires { AreNamed (groups_in map.now.entries) }
    ensures { Gives (λ p. p) result (Expanded.extra_list (groups_in map.now.entries) group.now) }
{
    let list = group_list(alloc, map, group)?;
    let name: &Name = &group.name;
    let (list, extra) = beside(list, group_extra(alloc, name))?;
    let list = list_of_extra(alloc, &extra, list);
    let (extra, list) = beside(extra, list)?;
    Ok((extra, Requirements { list }))
}

// The lists of groups, each under the extra that the group becomes.
fn group_lists<'a>(
    alloc: Global,
    map: &BTreeMap<Name, &'a Group>,
    groups: &'a [Group],
) -> Result<Vec<(Name, Requirements)>, ProjectFault>
    requires { AreNamed (groups_in map.now.entries) }
    ensures { Gives (λ v. v.items) result (Expanded.group_lists (groups_in map.now.entries) groups.now) }
{
    let mut lists = Vec::new(alloc);
    for group in groups {
        lists.push(extra_list(alloc, map, group)?)?;
    }
    Ok(lists)
}

// The lists of all groups, each under the extra that the group becomes.
fn all_group_lists(
    alloc: Global,
    groups: &[Group],
) -> Result<Vec<(Name, Requirements)>, ProjectFault>
    ensures { Gives (λ v. v.items) result (Expanded.group_lists (Expanded.group_named groups.now) groups.now) }
{
    let map = groups_by_name(alloc, groups)?;
    let lists = group_lists(alloc, &map, groups);
    drop(map);
    lists
}

// How many requirements are the project's own, and no extra's.
fn own_size(count: usize, sizes: &[u64]) -> usize
    ensures { result ≡ count - sum sizes.now }
{
    let mut own = count;
    for size in sizes {
        own = own.saturating_sub(*size as usize);
    }
    own
}

// The next requirements, so many if there are as many.
fn next_list(
    alloc: Global,
    rest: &mut std::vec::IntoIter<Requirement>,
    count: usize,
) -> Result<Vec<Requirement>, AllocError>
    ensures list { IfOk result (λ v. v.items ≡ take count (into_iter_items rest.old)) }
    ensures rest { OnOk result (into_iter_items rest.new ≡ drop count (into_iter_items rest.old)) }
{
    let mut list = Vec::new(alloc);
    for _turn in 0..count {
        let Some(requirement) = rest.next() else {
            return Ok(list);
        };
        list = with_one(list, requirement)?;
    }
    Ok(list)
}

// The lists of extras, by their sizes.
fn extra_lists(
    alloc: Global,
    extras: Vec<Name>,
    sizes: &[u64],
    mut rest: std::vec::IntoIter<Requirement>,
) -> Result<Vec<(Name, Requirements)>, AllocError>
    ensures { IfOk result (λ v. v.items ≡ zip extras.items (Expanded.lists_by sizes.now (into_iter_items rest))) }
{
    let mut lists = Vec::new(alloc);
    let mut number: usize = 0;
    for name in extras {
        let Some(size) = sizes.get(number) else {
            return Ok(lists);
        };
        let list = next_list(alloc, &mut rest, *size as usize)?;
        lists.push((name, Requirements { list }))?;
        number += 1;
    }
    Ok(lists)
}

// Puts lists among others, in byte order of their names.
fn put_lists(
    map: &mut BTreeMap<Name, Requirements>,
    lists: Vec<(Name, Requirements)>,
) -> Result<(), AllocError>
    ensures { OnOk result (map.new.entries ≡ fold put_list map.old.entries lists.items) }
{
    for (name, list) in lists {
        drop(map.insert(name, list)?);
    }
    Ok(())
}

// The lists of extras, which stand in the rest of a row of requirements, and others, in byte order of their names.
fn all_lists(
    alloc: Global,
    extras: Vec<Name>,
    sizes: &[u64],
    rest: std::vec::IntoIter<Requirement>,
    others: Vec<(Name, Requirements)>,
) -> Result<BTreeMap<Name, Requirements>, AllocError>
    ensures { IfOk result (λ m. m.entries
        ≡ by_name (zip extras.items (Expanded.lists_by sizes.now (into_iter_items rest)) ++ others.items)) }
{
    let lists = extra_lists(alloc, extras, sizes, rest)?;
    let mut map = BTreeMap::new(alloc);
    put_lists(&mut map, lists)?;
    put_lists(&mut map, others)?;
    Ok(map)
}

// Puts requirements behind others.
fn add_list(requirements: &mut Vec<Requirement>, list: Vec<Requirement>) -> Result<(), AllocError>
    ensures { OnOk result (requirements.new.items ≡ requirements.old.items ++ list.items) }
{
    for requirement in list {
        requirements.push(requirement)?;
    }
    Ok(())
}

// Puts the requirements of all lists behind others; answers the names of the lists and their sizes.
fn add_lists(
    alloc: Global,
    requirements: &mut Vec<Requirement>,
    lists: BTreeMap<Name, Requirements>,
) -> Result<(Vec<Name>, Vec<u64>), AllocError>
    ensures requirements { OnOk result (requirements.new.items
        ≡ requirements.old.items ++ Expanded.joined_lists lists.entries) }
    ensures extras { IfOk result (λ t. t.0.items ≡ names_of lists.entries) }
    ensures sizes { IfOk result (λ t. t.1.items ≡ map Extras.extra_size lists.entries) }
    ensures rises { IfOk result (λ t. IsStrictlySortedBy name_cmp t.0.items) }
{
    let _size = lists.len();
    let mut extras = Vec::new(alloc);
    let mut sizes = Vec::new(alloc);
    for (name, list) in lists {
        sizes.push(list.list.len() as u64)?;
        add_list(requirements, list.list)?;
        extras.push(name)?;
    }
    Ok((extras, sizes))
}

// Requirements with these lists among those of the extras, the extras, and how many requirements each has.
fn joined_requirements(
    alloc: Global,
    requirements: Vec<Requirement>,
    extras: Vec<Name>,
    sizes: Vec<u64>,
    lists: Vec<(Name, Requirements)>,
) -> Result<(Vec<Requirement>, Vec<Name>, Vec<u64>), AllocError>
    ensures requirements { IfOk result (λ t. t.0.items
        ≡ take (Expanded.own_size sizes.items requirements.items) requirements.items
        ++ Expanded.joined_lists (Expanded.lists_with extras.items sizes.items requirements.items lists.items)) }
    ensures extras { IfOk result (λ t. t.1.items
        ≡ names_of (Expanded.lists_with extras.items sizes.items requirements.items lists.items)) }
    ensures sizes { IfOk result (λ t. t.2.items
        ≡ map Extras.extra_size (Expanded.lists_with extras.items sizes.items requirements.items lists.items)) }
    ensures rises { IfOk result (λ t. IsStrictlySortedBy name_cmp t.1.items) }
{
    let own = own_size(requirements.len(), sizes.as_slice());
    let mut rest = requirements.into_iter();
    let first = next_list(alloc, &mut rest, own);
    let (kept, first) = beside((rest, extras, sizes, lists), first)?;
    let (rest, extras, sizes, lists) = kept;
    let lists = all_lists(alloc, extras, sizes.as_slice(), rest, lists);
    drop(sizes);
    let (mut requirements, lists) = beside(first, lists)?;
    let added = add_lists(alloc, &mut requirements, lists);
    let (requirements, added) = beside(requirements, added)?;
    let (extras, sizes) = added;
    Ok((requirements, extras, sizes))
}

// The same of a list that releases may share.
fn joined_list(
    alloc: Global,
    requirements: SharedList<Requirement>,
    extras: Vec<Name>,
    sizes: Vec<u64>,
    lists: Vec<(Name, Requirements)>,
) -> Result<(SharedList<Requirement>, Vec<Name>, Vec<u64>), AllocError>
    ensures requirements { IfOk result (λ t. t.0 ≡ take (Expanded.own_size sizes.items requirements) requirements
        ++ Expanded.joined_lists (Expanded.lists_with extras.items sizes.items requirements lists.items)) }
    ensures extras { IfOk result (λ t. t.1.items
        ≡ names_of (Expanded.lists_with extras.items sizes.items requirements lists.items)) }
    ensures sizes { IfOk result (λ t. t.2.items
        ≡ map Extras.extra_size (Expanded.lists_with extras.items sizes.items requirements lists.items)) }
    ensures rises { IfOk result (λ t. IsStrictlySortedBy name_cmp t.1.items) }
{
    let own = own_requirements(alloc, requirements);
    let ((extras, sizes, lists), own) = beside((extras, sizes, lists), own)?;
    let (list, extras, sizes) = joined_requirements(alloc, own, extras, sizes, lists)?;
    let (kept, shared) = beside((extras, sizes), SharedList::of(alloc, list))?;
    let (extras, sizes) = kept;
    Ok((shared, extras, sizes))
}

// A release with these lists among those of its extras, its extras, and how many requirements each has.
fn release_with(
    alloc: Global,
    release: Release,
    extras: Vec<Name>,
    sizes: Vec<u64>,
    lists: Vec<(Name, Requirements)>,
) -> Result<(Release, Vec<Name>, Vec<u64>), AllocError>
    ensures release { IfOk result (λ t. t.0 ≡ Expanded.with_lists (Expanded.own_size sizes.items release.requirements)
        (Expanded.lists_with extras.items sizes.items release.requirements lists.items) release) }
    ensures extras { IfOk result (λ t. t.1.items
        ≡ names_of (Expanded.lists_with extras.items sizes.items release.requirements lists.items)) }
    ensures sizes { IfOk result (λ t. t.2.items
        ≡ map Extras.extra_size (Expanded.lists_with extras.items sizes.items release.requirements lists.items)) }
    ensures rises { IfOk result (λ t. IsStrictlySortedBy name_cmp t.1.items) }
{
    let Release {
        version,
        python,
        requirements,
        yanked,
        files,
        source,
    } = release;
    let joined = joined_list(alloc, requirements, extras, sizes, lists);
    let (kept, joined) = beside((version, python, files, source), joined)?;
    let (version, python, files, source) = kept;
    let (requirements, extras, sizes) = joined;
    let release = Release {
        version,
        python,
        requirements,
        yanked,
        files,
        source,
    };
    Ok((release, extras, sizes))
}

// A package with these lists among those of its extras, its extras, and how many requirements each has.
fn with_extras(
    alloc: Global,
    found: Package,
    extras: Vec<Name>,
    sizes: Vec<u64>,
    lists: Vec<(Name, Requirements)>,
) -> Result<(Package, Vec<Name>, Vec<u64>), AllocError>
    requires { length found.releases ≡ 1 }
    ensures found { IfOk result (λ t. t.0
        ≡ Expanded.package_with sizes.items (Expanded.all_lists extras.items sizes.items found lists.items) found) }
    ensures one { IfOk result (λ t. length t.0.releases ≡ 1) }
    ensures extras { IfOk result (λ t. t.1.items
        ≡ names_of (Expanded.all_lists extras.items sizes.items found lists.items)) }
    ensures sizes { IfOk result (λ t. t.2.items
        ≡ map Extras.extra_size (Expanded.all_lists extras.items sizes.items found lists.items)) }
    ensures rises { IfOk result (λ t. IsStrictlySortedBy name_cmp t.1.items) }
{
    let Package {
        name,
        entries,
        prereleases,
        mut releases,
    } = found;
    let Some(release) = releases.pop() else {
        unreachable!();
    };
    drop(releases);
    let extended = release_with(alloc, release, extras, sizes, lists);
    let (name, extended) = beside(name, extended)?;
    let (release, extras, sizes) = extended;
    let releases = with_one(Vec::new(alloc), release);
    let (kept, releases) = beside((name, extras, sizes), releases)?;
    let (name, extras, sizes) = kept;
    let found = Package {
        name,
        entries,
        prereleases,
        releases,
    };
    Ok((found, extras, sizes))
}

// The project with these lists among those of its extras, and without groups.
fn extended_project(
    alloc: Global,
    project: Project,
    lists: Vec<(Name, Requirements)>,
) -> Result<Project, AllocError>
    ensures { IfOk result (λ p. p ≡ Expanded.with_extras project
        (Expanded.all_lists project.extras project.sizes project.package lists.items)) }
{
    let Project {
        package,
        extras,
        sizes,
        environments,
        region,
        mode,
        strategy,
        prereleases,
        groups,
        sources,
        constraints,
        overrides,
    } = project;
    drop(groups);
    let extended = with_extras(alloc, package, extras, sizes, lists);
    let bounds = (sources, constraints, overrides);
    let (kept, extended) = beside((environments, region, bounds), extended)?;
    let (environments, region, (sources, constraints, overrides)) = kept;
    let (package, extras, sizes) = extended;
    Ok(Project {
        package,
        extras,
        sizes,
        environments,
        region,
        mode,
        strategy,
        prereleases,
        groups: Vec::new(alloc),
        sources,
        constraints,
        overrides,
    })
}

/// The project whose groups are extras (PEP 735).
///
/// Each group becomes the extra `group-NAME`, at its place in byte order, with the group's requirements: depth first,
/// an include stands for the entries of its group, and for nothing where that group was already expanded in this
/// list. The fault is that of the first include of no group, or of a group that is being expanded: `Shape` at the
/// include's place. Any other error is want of memory.
pub fn expand(alloc: Global, project: Project) -> Result<Project, ProjectFault>
    ensures { Gives (λ p. p) result (Expanded.expanded_project project) }
{
    let groups: &Vec<Group> = &project.groups;
    let lists = all_group_lists(alloc, groups.as_slice())?;
    let project = extended_project(alloc, project, lists)?;
    Ok(project)
}
