//! Writing a lock.

ghost use Rattle.std.specs.Prelude.{◌≡◌, ◌++◌, ◌∷◌, [], codes, flat_map, OnOk, IfOk};
ghost use Rattle.ul_version.specs.Texts.{version_text};
ghost use Rattle.ul_lock_lines.specs.Raw.{keyed, quoted};
ghost use Rattle.ul_lock_lines.specs.Text.{escaped, fork_line, marker_line, marker_part};
ghost use Rattle.ul_lock_write.specs.Texts.{lock_text};
ghost use Rattle.ul_lock_write.specs.Headline.{WritesLock};
ghost use Rattle.ul_lock_write.specs.TextLimit.{IsWritten};
ghost use Rattle.ul_lock_write.specs.declared.writing.WriteFault.TheVariants.{NoMemory};
ghost use Rattle.ul_lock_write.specs.Written.{block_text, edge_bytes, edges_text, extra_text, file_bytes, files_text, forks_text, head_text, item_text, list_text, listed_text, supported_text, table_text, written};

use crate::paths::first_too_many;
use std::alloc::{AllocError, Global};
use ul_base::Name;
use ul_lock::{Edge, Extra, Lock, Locked, Region};
use ul_lock_lines::escaped_text;
use ul_requirement::FileEntry;
use ul_version::Version;

/// The most bytes of a text that is written: a lock, or the requirements file of one.
pub const TEXT_BYTES: usize = 67_108_864;

/// Why a lock isn't written.
#[derive(Debug, Drop)]
pub enum WriteFault {
    /// The first marker that isn't printed, since it has more than 4,096 paths to true or one with more than 512 nodes,
    /// has so many to true; 2^127 stands for more.
    TooManyPaths { paths: u128 },
    /// The text is longer than `TEXT_BYTES`.
    TooLong,
    /// Memory ran out.
    NoMemory,
}

impl From<AllocError> for WriteFault {
    ghost from_gives = { λ _ e. e ≡ NoMemory };

    fn from(_e: AllocError) -> WriteFault {
        WriteFault::NoMemory
    }
}

fn put_pair(out: &mut Vec<u8>, key: &[u8], text: &[u8]) -> Result<(), AllocError>
    ensures { OnOk result (out.new.items ≡ out.old.items ++ keyed key.now (quoted text.now (10 ∷ []))) }
{
    out.extend_from_slice(key)?;
    out.extend_from_slice(b" = \"")?;
    out.extend_from_slice(text)?;
    out.extend_from_slice(b"\"\n")?;
    Ok(())
}

fn put_name_line(out: &mut Vec<u8>, key: &[u8], name: &Name) -> Result<(), AllocError>
    ensures { OnOk result (out.new.items ≡ out.old.items ++ keyed key.now (quoted name.now (10 ∷ []))) }
{
    put_pair(out, key, name.text().as_bytes())
}

fn put_version_line(alloc: Global, out: &mut Vec<u8>, version: &Version) -> Result<(), AllocError>
    ensures { OnOk result (out.new.items
        ≡ out.old.items ++ keyed (codes "version") (quoted (version_text version.now) (10 ∷ []))) }
{
    let text = version.text(alloc)?;
    put_pair(out, b"version", text.as_str().as_bytes())
}

fn marker_bytes(alloc: Global, region: &Region) -> Result<Vec<u8>, AllocError>
    ensures { IfOk result (λ v. v.items ≡ marker_line region.now) }
{
    match ul_marker_text::text(alloc, region.as_tree()) {
        Err(_) => Err(AllocError),
        Ok(text) => {
            let line = escaped_text(alloc, text.as_str().as_bytes())?;
            Ok(line)
        }
    }
}

fn put_name(out: &mut Vec<u8>, front: &[u8], name: &Option<Name>) -> Result<(), AllocError>
    ensures { OnOk result (out.new.items ≡ out.old.items ++ written front.now name.now) }
{
    if let Some(name) = name {
        out.extend_from_slice(front)?;
        out.extend_from_slice(name.text().as_bytes())?;
    }
    Ok(())
}

fn put_marker(
    alloc: Global,
    out: &mut Vec<u8>,
    front: &[u8],
    region: &Region,
) -> Result<(), AllocError>
    ensures { OnOk result (out.new.items ≡ out.old.items ++ written front.now (marker_part region.now)) }
{
    if region.is_all() {
        return Ok(());
    }
    let line = marker_bytes(alloc, region)?;
    out.extend_from_slice(front)?;
    out.extend_from_slice(line.as_slice())?;
    Ok(())
}

fn put_edge(alloc: Global, out: &mut Vec<u8>, edge: &Edge) -> Result<(), AllocError>
    ensures { OnOk result (out.new.items ≡ out.old.items ++ edge_bytes edge.now) }
{
    let version = edge.version.text(alloc)?;
    out.extend_from_slice(b"    { name = \"")?;
    out.extend_from_slice(edge.target.name.text().as_bytes())?;
    out.extend_from_slice(b"\", version = \"")?;
    out.extend_from_slice(version.as_str().as_bytes())?;
    put_name(out, b"\", extra = \"", &edge.target.extra)?;
    put_marker(alloc, out, b"\", marker = \"", &edge.marker)?;
    out.extend_from_slice(b"\" },\n")?;
    Ok(())
}

fn put_edges(alloc: Global, out: &mut Vec<u8>, edges: &[Edge]) -> Result<(), AllocError>
    ensures { OnOk result (out.new.items ≡ out.old.items ++ flat_map edge_bytes edges.now) }
{
    for edge in edges {
        put_edge(alloc, out, edge)?;
    }
    Ok(())
}

fn put_list(alloc: Global, out: &mut Vec<u8>, key: &[u8], edges: &[Edge]) -> Result<(), AllocError>
    ensures { OnOk result (out.new.items ≡ out.old.items ++ list_text key.now edges.now) }
{
    out.extend_from_slice(key)?;
    out.extend_from_slice(b" = [\n")?;
    put_edges(alloc, out, edges)?;
    out.extend_from_slice(b"]\n")?;
    Ok(())
}

fn put_listed(
    alloc: Global,
    out: &mut Vec<u8>,
    key: &[u8],
    edges: &[Edge],
) -> Result<(), AllocError>
    ensures { OnOk result (out.new.items ≡ out.old.items ++ listed_text key.now edges.now) }
{
    if edges.is_empty() {
        out.extend_from_slice(key)?;
        out.extend_from_slice(b" = []\n")?;
        return Ok(());
    }
    put_list(alloc, out, key, edges)
}

#[tactic(auto, unfolding(crate::specs::Written::extra_text))]
fn put_extra(alloc: Global, out: &mut Vec<u8>, extra: &Extra) -> Result<(), AllocError>
    ensures { OnOk result (out.new.items ≡ out.old.items ++ extra_text extra.now) }
{
    put_listed(
        alloc,
        out,
        extra.name.text().as_bytes(),
        extra.edges.as_slice(),
    )
}

fn put_table(alloc: Global, out: &mut Vec<u8>, extras: &[Extra]) -> Result<(), AllocError>
    ensures { OnOk result (out.new.items ≡ out.old.items ++ table_text extras.now) }
{
    if extras.is_empty() {
        return Ok(());
    }
    out.extend_from_slice(b"\n[package.optional-dependencies]\n")?;
    for extra in extras {
        put_extra(alloc, out, extra)?;
    }
    Ok(())
}

fn put_dependencies(alloc: Global, out: &mut Vec<u8>, edges: &[Edge]) -> Result<(), AllocError>
    ensures { OnOk result (out.new.items ≡ out.old.items ++ edges_text edges.now) }
{
    if edges.is_empty() {
        return Ok(());
    }
    put_list(alloc, out, b"dependencies", edges)
}

fn file_name(file: &FileEntry) -> &str
    ensures { result.now ≡ file.now.file }
{
    file.file.as_str()
}

fn file_sum(file: &FileEntry) -> &str
    ensures { result.now ≡ file.now.sha256 }
{
    file.sha256.as_str()
}

fn put_text(out: &mut Vec<u8>, text: &str) -> Result<(), AllocError>
    ensures { OnOk result (out.new.items ≡ out.old.items ++ text.now) }
{
    out.extend_from_slice(text.as_bytes())?;
    Ok(())
}

fn put_file(out: &mut Vec<u8>, file: &FileEntry) -> Result<(), AllocError>
    ensures { OnOk result (out.new.items ≡ out.old.items ++ file_bytes file.now) }
{
    out.extend_from_slice(b"    { file = \"")?;
    put_text(out, file_name(file))?;
    out.extend_from_slice(b"\", hash = \"sha256:")?;
    put_text(out, file_sum(file))?;
    out.extend_from_slice(b"\" },\n")?;
    Ok(())
}

fn put_files(out: &mut Vec<u8>, files: &[FileEntry]) -> Result<(), AllocError>
    ensures { OnOk result (out.new.items ≡ out.old.items ++ files_text files.now) }
{
    if files.is_empty() {
        return Ok(());
    }
    out.extend_from_slice(b"files = [\n")?;
    for file in files {
        put_file(out, file)?;
    }
    out.extend_from_slice(b"]\n")?;
    Ok(())
}

fn put_block(alloc: Global, out: &mut Vec<u8>, block: &Locked) -> Result<(), AllocError>
    ensures { OnOk result (out.new.items ≡ out.old.items ++ block_text block.now) }
{
    out.extend_from_slice(b"\n[[package]]\n")?;
    put_name_line(out, b"name", &block.name)?;
    put_version_line(alloc, out, &block.version)?;
    put_files(out, block.files.as_slice())?;
    put_dependencies(alloc, out, block.edges.as_slice())?;
    put_table(alloc, out, block.extras.as_slice())?;
    Ok(())
}

fn fork_bytes(alloc: Global, region: &Region) -> Result<Vec<u8>, AllocError>
    ensures { IfOk result (λ v. v.items ≡ fork_line region.now) }
{
    if region.is_all() {
        let star = Vec::from_slice(alloc, b"*")?;
        return Ok(star);
    }
    marker_bytes(alloc, region)
}

#[tactic(auto, unfolding(crate::specs::Written::item_text))]
fn put_item(alloc: Global, out: &mut Vec<u8>, region: &Region) -> Result<(), AllocError>
    ensures { OnOk result (out.new.items ≡ out.old.items ++ item_text region.now) }
{
    let line = fork_bytes(alloc, region)?;
    out.extend_from_slice(b"    \"")?;
    out.extend_from_slice(line.as_slice())?;
    out.extend_from_slice(b"\",\n")?;
    Ok(())
}

fn put_forks(alloc: Global, out: &mut Vec<u8>, forks: &[Region]) -> Result<(), AllocError>
    ensures { OnOk result (out.new.items ≡ out.old.items ++ forks_text forks.now) }
{
    if forks.is_empty() {
        return Ok(());
    }
    out.extend_from_slice(b"resolution-markers = [\n")?;
    for fork in forks {
        put_item(alloc, out, fork)?;
    }
    out.extend_from_slice(b"]\n")?;
    Ok(())
}

fn put_supported(alloc: Global, out: &mut Vec<u8>, region: &Region) -> Result<(), AllocError>
    ensures { OnOk result (out.new.items ≡ out.old.items ++ supported_text region.now) }
{
    if region.is_all() {
        return Ok(());
    }
    let line = marker_bytes(alloc, region)?;
    put_pair(out, b"supported-markers", line.as_slice())
}

fn put_head(alloc: Global, out: &mut Vec<u8>, lock: &Lock) -> Result<(), AllocError>
    ensures { OnOk result (out.new.items ≡ out.old.items ++ head_text lock.now) }
{
    out.extend_from_slice(b"version = 2\n")?;
    put_name_line(out, b"root", &lock.root)?;
    put_supported(alloc, out, &lock.supported)?;
    put_forks(alloc, out, lock.forks.as_slice())?;
    Ok(())
}

// The text, or that it is too long. What was written is looked at behind each package, so that no text is made that is
// longer than the limit by more than a package.
fn whole_text(alloc: Global, lock: &Lock) -> Result<Vec<u8>, WriteFault>
    ensures { IsWritten (lock_text lock.now) result }
{
    let mut out = Vec::new(alloc);
    put_head(alloc, &mut out, lock)?;
    for block in lock.packages.as_slice() {
        put_block(alloc, &mut out, block)?;
        if out.len() > TEXT_BYTES {
            return Err(WriteFault::TooLong);
        }
    }
    if out.len() > TEXT_BYTES {
        return Err(WriteFault::TooLong);
    }
    Ok(out)
}

/// The text of a lock, in version 2 of the format.
///
/// Markers that aren't printed are found before anything is written.
pub fn write(alloc: Global, lock: &Lock) -> Result<Vec<u8>, WriteFault>
    ensures { WritesLock lock.now result }
{
    match first_too_many(lock) {
        Some(paths) => Err(WriteFault::TooManyPaths { paths }),
        None => whole_text(alloc, lock),
    }
}
