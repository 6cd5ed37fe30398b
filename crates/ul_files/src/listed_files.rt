//! Files of a list, found by an index of their paths.
ghost use Rattle.std.specs.Prelude.{◌≡◌, ◌≢◌, IfOk, option_map};
ghost use Rattle.ul_files.specs.Files.{content, files_of, Tells};
ghost use Rattle.ul_files.specs.ListedFiles.{IsIndex};

use crate::files::ReadRefused;
use std::alloc::{AllocError, Global};
use std::collections::HashMap;
use std::marker::Model;

/// Files of a list, of which the first pair of a path counts. The first read makes an index of the paths, so that
/// each takes constant time.
///
/// A clause sees the map.
#[derive(Drop)]
pub(crate) struct ListedFiles {
    list: Vec<(String, Vec<u8>)>,
    places: Option<HashMap<String, usize>>,
}

impl Model for ListedFiles {
    ghost use Rattle.std.specs.Prelude.{IfSome};
    ghost use Rattle.ul_files.specs.Files.{FileMap, files_of};
    ghost use Rattle.ul_files.specs.ListedFiles.{IsIndex};

    ghost Value = { FileMap };

    ghost view = { λ s. files_of s.list.items };

    ghost invariant = { λ s. IfSome s.places (IsIndex s.list.items) };
}

impl ListedFiles {
    /// The files of a list.
    pub(crate) fn of(list: Vec<(String, Vec<u8>)>) -> ListedFiles
        ensures { result ≡ files_of list.items }
    {
        ListedFiles { list, places: None }
    }

    /// The answer to a read that doesn't fail.
    pub(crate) fn answer(
        &mut self,
        alloc: Global,
        path: &str,
        limit: u64,
    ) -> Result<Option<Vec<u8>>, ReadRefused>
        ensures same { self.new ≡ self.old }
        ensures tells { Tells self.old path.now limit result }
        ensures sure { result ≢ Err ReadRefused.Failed }
    {
        match &self.places {
            Some(places) => answer(alloc, &self.list, places, path, limit),
            None => {
                let places = index(alloc, &self.list)?;
                let answer = answer(alloc, &self.list, &places, path, limit);
                self.places = Some(places);
                answer
            }
        }
    }
}

// The answer to a read that doesn't fail.
fn answer(
    alloc: Global,
    list: &[(String, Vec<u8>)],
    places: &HashMap<String, usize>,
    path: &str,
    limit: u64,
) -> Result<Option<Vec<u8>>, ReadRefused>
    requires { IsIndex list.now places.now }
    ensures tells { Tells (files_of list.now) path.now limit result }
    ensures sure { result ≢ Err ReadRefused.Failed }
{
    match find(list, places, path) {
        None => Ok(None),
        Some(bytes) => {
            if bytes.len() as u64 > limit {
                return Err(ReadRefused::TooLong);
            }
            let copy = Vec::from_slice(alloc, bytes)?;
            Ok(Some(copy))
        }
    }
}

// The bytes of the first pair that has the path.
fn find<'a>(
    list: &'a [(String, Vec<u8>)],
    places: &HashMap<String, usize>,
    path: &str,
) -> Option<&'a [u8]>
    requires { IsIndex list.now places.now }
    ensures { option_map (λ b. b.now) result ≡ content (files_of list.now) path.now }
{
    let place = places.get(path)?;
    let pair = list.get(*place)?;
    Some(&pair.1)
}

// The place of the first pair of each path.
fn index(alloc: Global, list: &[(String, Vec<u8>)]) -> Result<HashMap<String, usize>, AllocError>
    ensures { IfOk result (λ m. IsIndex list.now m) }
{
    let mut places = HashMap::new(alloc);
    for place in (0..list.len()).rev() {
        let path = String::from_str(alloc, list[place].0.as_str())?;
        places.insert(path, place)?;
    }
    Ok(places)
}
