// The edge: real files, and readers and writers that give and take a little, are interrupted or fail.
use crate::tests::cells;
use std::alloc::{AllocError, Global};
use std::env::Args;
use std::io::{ErrorKind, Read, Write};
use std::process::Abort;
use std::sync::Wait;
use std::thread::Threads;
use std::{fs, io};
use ul_base::Open;
use ul_edge::{Counted, OpenedFiles, Opener, read_all, read_opened, write_all};
use ul_files::{Files, MemFiles, MemSink, ReadRefused, Sink, SinkRefused};
use ul_program::{Folder, OutSink, ended};

const TEXT: &[u8] = b"a text of thirty bytes to move";

// The turns of a reader or a writer, one a call, with blanks between them: how many bytes it moves, or all where that
// is less; `interrupt`, where a signal interrupts it; or `fail`. After the last of them a call moves all that it can.
#[derive(Drop)]
struct Turns<'a> {
    turns: &'a str,
}

impl Turns<'_> {
    // How many bytes the next call moves at most.
    fn next(&mut self) -> io::Result<usize> {
        let (turn, rest) = self.turns.split_once(' ').unwrap_or((self.turns, ""));
        self.turns = rest;
        match turn {
            "" => Ok(usize::MAX),
            "interrupt" => Err(io::Error::from(ErrorKind::Interrupted)),
            "fail" => Err(io::Error::from(ErrorKind::Other)),
            count => Ok(count.parse::<usize>().unwrap_or(0)),
        }
    }
}

// A reader of bytes.
#[derive(Drop)]
struct Giving<'a> {
    turns: Turns<'a>,
    left: &'a [u8],
}

impl Read for Giving<'_> {
    fn read(&mut self, buf: &mut [u8]) -> io::Result<usize> {
        let count = self.turns.next()?.min(buf.len()).min(self.left.len());
        buf[..count].copy_from_slice(&self.left[..count]);
        self.left = &self.left[count..];
        Ok(count)
    }
}

// A writer that keeps what it took.
#[derive(Drop)]
struct Taking<'a> {
    turns: Turns<'a>,
    taken: Vec<u8>,
}

impl Write for Taking<'_> {
    fn write(&mut self, buf: &[u8]) -> io::Result<usize> {
        let count = self.turns.next()?.min(buf.len());
        self.taken.extend_from_slice(&buf[..count])?;
        Ok(count)
    }

    fn flush(&mut self) -> io::Result<()> {
        Ok(())
    }
}

fn given(alloc: Global, turns: &str, limit: u64) -> Result<Vec<u8>, ReadRefused> {
    let mut reader = Counted::new(Giving {
        turns: Turns { turns },
        left: TEXT,
    });
    read_all(alloc, &mut reader, limit)
}

// Whether a reader of these turns gives all, or fails; and the turns.
const READS: &str = "whole|\n\
    whole|3 1 7\n\
    whole|interrupt 3 interrupt interrupt 1\n\
    whole|30 interrupt\n\
    whole|29 interrupt 1 interrupt\n\
    fails|fail\n\
    fails|3 fail\n\
    fails|3 interrupt fail\n\
    fails|30 fail";

fn is_too_long(alloc: Global, turns: &str) -> bool {
    given(alloc, turns, 29).err() == Some(ReadRefused::TooLong)
}

fn is_read(alloc: Global, turns: &str) -> bool {
    match given(alloc, turns, 30) {
        Ok(bytes) => bytes.as_slice() == TEXT,
        Err(_) => false,
    }
}

fn is_failed(alloc: Global, turns: &str) -> bool {
    given(alloc, turns, 30).err() == Some(ReadRefused::Failed)
}

// Whether all is read, and refused where a byte less may be; or a failed read isn't taken for the end.
fn is_given(alloc: Global, line: &str) -> bool {
    let (end, turns) = line.split_once('|').unwrap_or((line, ""));
    if end == "whole" {
        is_read(alloc, turns) && is_too_long(alloc, turns)
    } else {
        is_failed(alloc, turns)
    }
}

#[test]
fn reads_to_the_end_or_fails(rt: HostRuntime) {
    for line in READS.split('\n') {
        assert!(rt; is_given(rt.alloc(), line), "{line}");
    }
}

// Whether the text is written, how many bytes are taken, and the turns of the writer.
const WRITES: &str = "whole|30|\n\
    whole|30|3 1 7\n\
    whole|30|interrupt 3 interrupt interrupt\n\
    whole|30|30 fail\n\
    fails|0|fail\n\
    fails|3|3 fail\n\
    fails|29|29 interrupt fail\n\
    fails|0|0\n\
    fails|3|3 0";

// Whether so many bytes of the text were taken.
fn has_taken(writer: &Taking<'_>, count: usize) -> bool {
    count <= 30 && writer.taken.as_slice() == &TEXT[..count]
}

fn is_taken(alloc: Global, turns: &str, is_whole: bool, count: usize) -> bool {
    let mut writer = Taking {
        turns: Turns { turns },
        taken: Vec::new(alloc),
    };
    let is_done = write_all(&mut Counted::new(&mut writer), TEXT).is_ok();
    is_done == is_whole && has_taken(&writer, count)
}

fn is_row(alloc: Global, line: &str) -> bool {
    let (end, rest) = line.split_once('|').unwrap_or((line, ""));
    let (count, turns) = rest.split_once('|').unwrap_or((rest, ""));
    let count = count.parse::<usize>().unwrap_or(usize::MAX);
    is_taken(alloc, turns, end == "whole", count)
}

#[test]
fn writes_the_whole_piece_or_fails(rt: HostRuntime) {
    for line in WRITES.split('\n') {
        assert!(rt; is_row(rt.alloc(), line), "{line}");
    }
}

// Whether a sink over a writer refuses the text, and then takes what is given.
fn is_refused_once(writer: &mut Taking<'_>) -> bool {
    let mut out = OutSink::new(writer);
    let refused = out.write_all(TEXT).err() == Some(SinkRefused::Failed);
    refused && out.write_all(b"more").is_ok() && out.write_all(b"").is_ok()
}

fn is_counted(alloc: Global) -> bool {
    let mut writer = Taking {
        turns: Turns {
            turns: "3 0 interrupt",
        },
        taken: Vec::new(alloc),
    };
    is_refused_once(&mut writer) && writer.taken.as_slice() == b"a tmore".as_slice()
}

#[test]
fn a_sink_over_a_writer_counts_its_failures(rt: HostRuntime) {
    assert!(rt; is_counted(rt.alloc()));
}

const PATH: &str = "unilock-file.txt";

// Whether the file is written, with so many bytes and one more.
fn is_made<R: fs::Files>(rt: &R, alloc: Global, length: usize) -> bool {
    match Vec::from_elem(alloc, b'x', length) {
        Ok(mut bytes) => {
            bytes.push(b'y').is_ok() && fs::write(rt, PATH, bytes.as_slice()).is_ok()
        }
        Err(_) => false,
    }
}

// Whether the file has so many bytes and one more.
fn is_whole<F: Files>(files: &mut F, length: usize) -> bool {
    let size = length.saturating_add(1);
    match files.read(PATH, size as u64) {
        Ok(Some(bytes)) => bytes.len() == size && bytes.last() == Some(&b'y'),
        _ => false,
    }
}

fn is_longer<F: Files>(files: &mut F, length: usize) -> bool {
    files.read(PATH, length as u64).err() == Some(ReadRefused::TooLong)
}

fn is_refused<F: Files>(files: &mut F, path: &str) -> bool {
    files.read(path, 9).err() == Some(ReadRefused::Failed)
}

fn is_absent<F: Files>(files: &mut F) -> bool {
    matches!(files.read(PATH, 9), Ok(None))
}

// Whether what lies below the file is refused, and then the file is gone, and a folder refused.
fn is_gone<R: fs::Files, F: Files>(rt: &R, files: &mut F) -> bool {
    is_refused(files, "unilock-file.txt/x")
        && fs::remove_file(rt, PATH).is_ok()
        && is_absent(files)
        && is_refused(files, ".")
}

// Whether files of these sizes are read as they were written.
fn are_kept<R: fs::Files, F: Files>(rt: &R, alloc: Global, files: &mut F) -> bool {
    for length in [0, 9_999, 200_000, 16_777_215] {
        if !is_made(rt, alloc, length) || !is_whole(files, length) || !is_longer(files, length) {
            return false;
        }
    }
    is_gone(rt, files)
}

#[test]
fn reads_real_files(rt: HostRuntime) {
    let mut files = OpenedFiles::new(rt.alloc(), Folder::of(&rt));
    assert!(rt; are_kept(&rt, rt.alloc(), &mut files));
}

// Whether a file that was to be opened is told so, and its failure is counted.
fn is_told(
    alloc: Global,
    opened: io::Result<Giving<'_>>,
    wanted: Result<Option<&[u8]>, ReadRefused>,
    count: u64,
) -> bool {
    let mut faults = 0;
    let told = read_opened(alloc, opened, 30, &mut faults);
    let is_wanted = match (&told, &wanted) {
        (Ok(Some(bytes)), Ok(Some(given))) => bytes.as_slice() == *given,
        (Ok(None), Ok(None)) => true,
        (Err(refused), Err(fault)) => refused == fault,
        _ => false,
    };
    is_wanted && faults == count
}

fn opened<'a>(turns: &'a str, left: &'a [u8]) -> io::Result<Giving<'a>> {
    Ok(Giving {
        turns: Turns { turns },
        left,
    })
}

fn unopened<'a>(kind: ErrorKind) -> io::Result<Giving<'a>> {
    Err(io::Error::from(kind))
}

#[test]
fn tells_what_was_opened(rt: HostRuntime) {
    let alloc = rt.alloc();
    let failed = ReadRefused::Failed;
    assert!(rt; is_told(alloc, opened("3 interrupt 1", TEXT), Ok(Some(TEXT)), 0));
    assert!(rt; is_told(alloc, opened("", b"\r\n"), Ok(Some(b"\r\n")), 0));
    assert!(rt; is_told(alloc, opened("", b""), Ok(Some(b"")), 0));
    assert!(rt; is_told(alloc, opened("", &[b'x'; 31]), Err(ReadRefused::TooLong), 0));
    assert!(rt; is_told(alloc, opened("3 fail", TEXT), Err(failed), 1));
    assert!(rt; is_told(alloc, unopened(ErrorKind::NotFound), Ok(None), 0));
    assert!(rt; is_told(alloc, unopened(ErrorKind::PermissionDenied), Err(failed), 1));
}

// Opens the text at `p` and a reader of it that fails at `q`, and finds nothing at another path.
#[derive(Drop)]
struct Paths<'a> {
    text: &'a [u8],
}

impl<'a> Opener for Paths<'a> {
    ghost use Rattle.std.specs.Prelude.{⊤};

    type File = Giving<'a>;

    ghost opens = { λ _ _ _. ⊤ };

    fn open(&self, path: &str) -> io::Result<Giving<'a>> {
        match path {
            "p" => opened("3 interrupt 1", self.text),
            "q" => opened("3 fail", self.text),
            _ => unopened(ErrorKind::NotFound),
        }
    }
}

// Whether a path of files has these bytes.
fn has_bytes<F: Files>(files: &mut F, path: &str, wanted: &[u8]) -> bool {
    match files.read(path, 30) {
        Ok(Some(bytes)) => bytes.as_slice() == wanted,
        _ => false,
    }
}

#[test]
fn reads_what_is_opened_at_the_path(rt: HostRuntime) {
    let mut files = OpenedFiles::new(rt.alloc(), Paths { text: TEXT });
    assert!(rt; has_bytes(&mut files, "p", TEXT) && has_bytes(&mut files, "p", TEXT));
    assert!(rt; is_refused(&mut files, "q"));
    assert!(rt;
        matches!(files.read(" p", 30), Ok(None)) && matches!(files.read("p ", 30), Ok(None))
    );
}

fn listed(alloc: Global, line: &str) -> Result<Vec<String>, AllocError> {
    let mut words = Vec::new(alloc);
    for word in line.split(' ') {
        words.push(String::from_str(alloc, word)?)?;
    }
    Ok(words)
}

// What arguments end with over no files: the status, a blank and the first word that is printed.
fn end_of<R: Threads + Wait + Sync>(
    rt: &R,
    alloc: Global,
    arguments: io::Result<Args>,
) -> Result<String, AllocError> {
    let mut files = MemFiles::of(alloc, Vec::new(alloc), Vec::new(alloc));
    let mut out = MemSink::of(alloc, Vec::new(alloc));
    let status = ended(rt, alloc, arguments, &mut files, &mut out, &Open);
    let printed = str::from_utf8(out.bytes().as_slice()).unwrap_or("no text");
    let (first, _) = cells(printed, " ");
    let told = format!(in alloc; "{status} {first}")?;
    Ok(told)
}

// Whether arguments end so.
fn ends_so<R: Threads + Wait + Sync>(
    rt: &R,
    alloc: Global,
    arguments: io::Result<Args>,
    wanted: &str,
) -> bool {
    match end_of(rt, alloc, arguments) {
        Ok(told) => told.as_str() == wanted,
        Err(_) => false,
    }
}

// Whether a line of arguments does.
fn is_ended<R: Threads + Wait + Sync>(rt: &R, alloc: Global, line: &str, wanted: &str) -> bool {
    match listed(alloc, line) {
        Ok(given) => ends_so(rt, alloc, Ok(given.into_iter()), wanted),
        Err(_) => false,
    }
}

#[test]
fn answers_the_arguments_behind_the_name(rt: HostRuntime) {
    let alloc = rt.alloc();
    assert!(rt; is_ended(&rt, alloc, "unilock verify p.toml ix l", "3 malformed:"));
    assert!(rt; is_ended(&rt, alloc, "verify p.toml ix l", "2 usage:"));
    assert!(rt; is_ended(&rt, alloc, "unilock", "2 usage:"));
    assert!(rt;
        ends_so(
            &rt,
            alloc,
            Err(io::Error::from(ErrorKind::InvalidData)),
            "2 usage:"
        )
    );
    assert!(rt;
        ends_so(
            &rt,
            alloc,
            Err(io::Error::from(ErrorKind::OutOfMemory)),
            "7 "
        )
    );
}
