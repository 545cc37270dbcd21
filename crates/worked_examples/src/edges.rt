//! The shelf and the sinks: those in memory fail at the calls they are told, and those over std do what std does.
ghost use Rattle.std.specs.Prelude.{◌≤◌};

use outside::{Failed, FileShelf, MemShelf, MemSink, Shelf, Sink, StdSink};
use std::alloc::Global;
use std::process::Abort;
use std::test::Fail;
use std::{fs, io};

// A shelf that has the one file `f`.
fn shelf(alloc: Global, text: &str, piece: usize, failing: &[u64]) -> Result<MemShelf, Fail>
    requires { 1 ≤ piece }
{
    let mut files = Vec::new(alloc);
    let file = (
        String::from_str(alloc, "f")?,
        text.as_bytes().to_vec(alloc)?,
    );
    files.push(file)?;
    Ok(MemShelf::new(files, piece, failing.to_vec(alloc)?))
}

// Reads a file in calls of `next` with this buffer, and says what each call answered.
fn counts<S: Shelf>(
    alloc: Global,
    shelf: &mut S,
    name: &str,
    buf: &mut [u8],
) -> Result<Vec<Result<usize, Failed>>, Fail> {
    let mut answers = Vec::new(alloc);
    if shelf.start(name).is_err() {
        answers.push(Err(Failed))?;
        return Ok(answers);
    }
    for _ in 0..8 {
        let answer = shelf.next(name, buf);
        answers.push(answer)?;
        match answer {
            Ok(0) | Err(_) => break,
            Ok(_) => {}
        }
    }
    Ok(answers)
}

// The answers for the file of this name, of a shelf in memory that has the file `f`.
fn counts_in_memory(
    alloc: Global,
    piece: usize,
    failing: &[u64],
    name: &str,
) -> Result<Vec<Result<usize, Failed>>, Fail> {
    if piece == 0 {
        return Err(Fail::from("a piece of this table has no byte"));
    }
    let mut shelf = shelf(alloc, "abcdefg", piece, failing)?;
    let mut buf = [0u8; 4];
    counts(alloc, &mut shelf, name, &mut buf)
}

// Tests ask the functions below, which assert where no shelf and no table is at hand: an assertion
// beside them costs the prover minutes.
fn assert_counts(
    rt: &impl Abort,
    answers: &[Result<usize, Failed>],
    want: &[Result<usize, Failed>],
    shown: &str,
) {
    assert_eq!(rt; answers, want, "{shown}");
}

#[test]
fn a_shelf_in_memory_gives_pieces_and_fails_where_told(rt: HostRuntime) -> Result<(), Fail> {
    let alloc = rt.alloc();
    let cases: [(usize, &[u64], &str, &[Result<usize, Failed>]); 6] = [
        (3, &[], "f", &[Ok(3), Ok(3), Ok(1), Ok(0)]),
        (9, &[], "f", &[Ok(4), Ok(3), Ok(0)]),
        (9, &[], "g", &[Err(Failed)]),
        (9, &[0], "f", &[Err(Failed)]),
        (9, &[2, 7], "f", &[Ok(4), Err(Failed)]),
        (9, &[3], "f", &[Ok(4), Ok(3), Err(Failed)]),
    ];
    for (piece, failing, name, want) in cases {
        let answers = counts_in_memory(alloc, piece, failing, name)?;
        assert_counts(&rt, &answers, want, name);
    }
    Ok(())
}

fn sink(alloc: Global, room: usize, piece: usize, failing: &[u64]) -> Result<MemSink, Fail> {
    if piece == 0 {
        return Err(Fail::from("a piece of this table has no byte"));
    }
    Ok(MemSink::new(alloc, room, piece, failing.to_vec(alloc)?)?)
}

fn expect_put<S: Sink>(
    rt: &impl Abort,
    sink: &mut S,
    bytes: &[u8],
    want: Result<usize, Failed>,
    shown: &str,
) {
    assert_eq!(rt; sink.put(bytes), want, "{shown}");
}

fn assert_bytes(rt: &impl Abort, bytes: &[u8], want: &[u8]) {
    assert_eq!(rt; bytes, want);
}

// Puts `abc` three times and then nothing.
fn expect_puts(rt: &impl Abort, sink: &mut MemSink, want: &[Result<usize, Failed>], taken: &str) {
    for answer in want {
        expect_put(rt, sink, b"abc", *answer, taken);
    }
    assert_bytes(rt, sink.bytes(), taken.as_bytes());
    expect_put(rt, sink, b"", Ok(0), taken);
}

#[test]
fn a_sink_in_memory_takes_pieces_and_fails_where_told(rt: HostRuntime) -> Result<(), Fail> {
    let cases: [(usize, usize, &[u64], [Result<usize, Failed>; 3], &str); 5] = [
        (9, 2, &[], [Ok(2), Ok(2), Ok(2)], "ababab"),
        (9, 4, &[], [Ok(3), Ok(3), Ok(3)], "abcabcabc"),
        (5, 4, &[], [Ok(3), Ok(2), Err(Failed)], "abcab"),
        (9, 4, &[1], [Ok(3), Err(Failed), Ok(3)], "abcabc"),
        (0, 4, &[], [Err(Failed), Err(Failed), Err(Failed)], ""),
    ];
    for (room, piece, failing, want, taken) in cases {
        let mut sink = sink(rt.alloc(), room, piece, failing)?;
        expect_puts(&rt, &mut sink, &want, taken);
    }
    Ok(())
}

fn expect_no_start<S: Shelf>(rt: &impl Abort, shelf: &mut S, name: &str) {
    assert_eq!(rt; shelf.start(name), Err(Failed));
}

#[test]
fn a_file_is_read_and_a_missing_one_is_a_fault(rt: HostRuntime) -> Result<(), Fail> {
    let alloc = rt.alloc();
    let mut path = std::env::temp_dir(&rt)?;
    path.push("rdfc_outside_shelf.txt")?;
    fs::write(&rt, path.as_path(), "abcdefg")?;
    let mut shelf = FileShelf::new(&rt);
    let mut buf = [0u8; 4];
    let answers = counts(alloc, &mut shelf, path.as_str(), &mut buf)?;
    assert_counts(&rt, &answers, &[Ok(4), Ok(3), Ok(0)], "a file");
    assert_bytes(&rt, &buf, b"efgd");
    fs::remove_file(&rt, path.as_path())?;
    expect_no_start(&rt, &mut shelf, path.as_str());
    Ok(())
}

// A writer that takes nothing.
#[derive(Drop)]
struct Full;

impl io::Write for Full {
    fn write(&mut self, _buf: &[u8]) -> io::Result<usize> {
        Ok(0)
    }

    fn flush(&mut self) -> io::Result<()> {
        Ok(())
    }
}

#[test]
fn a_writer_of_std_gets_the_bytes_and_a_full_one_is_a_fault(rt: HostRuntime) -> Result<(), Fail> {
    let mut path = std::env::temp_dir(&rt)?;
    path.push("rdfc_outside_sink.txt")?;
    let mut sink = StdSink::new(fs::create(&rt, path.as_path())?);
    expect_put(&rt, &mut sink, b"abc", Ok(3), "a file");
    expect_put(&rt, &mut sink, b"", Ok(0), "a file");
    expect_put(&rt, &mut sink, b"de", Ok(2), "a file");
    let written = fs::read(&rt, path.as_path())?;
    assert_bytes(&rt, &written, b"abcde");
    fs::remove_file(&rt, path.as_path())?;
    let mut full = StdSink::new(Full);
    expect_put(&rt, &mut full, b"abc", Err(Failed), "a full writer");
    expect_put(&rt, &mut full, b"", Ok(0), "a full writer");
    Ok(())
}
