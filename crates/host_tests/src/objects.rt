//! Lists and entries, and the objects in memory through the traits of the outside, with one
//! failing call in the midst of each object's calls.

ghost use Rattle.std.specs.Prelude.{◌≡◌, ◌≤◌, OnOk, OnErr, IfOk, take};
ghost use Rattle.wx_types.specs.Files.{told_file};
ghost use Rattle.wx_types.specs.Outside.{Rose, preceded_by};

use std::alloc::{AllocError, Global};
use std::test::Fail;
use wx_types::*;

fn are(bytes: &[u8], wanted: &[u8]) -> bool {
    bytes == wanted
}

/// Whether a copy's bytes are these, and make an equal list.
fn is_copied_as(alloc: Global, bytes: &Bytes, wanted: &[u8]) -> Result<bool, AllocError> {
    let items = bytes.copy(alloc)?.into_vec();
    let same = are(items.as_slice(), wanted);
    Ok(same && Bytes::from_vec(items) == *bytes)
}

#[test]
fn bytes_are_copied_whole(rt: HostRuntime) -> Result<(), Fail> {
    let alloc = rt.alloc();
    let bytes = Bytes::new(alloc, b"abc")?;
    assert!(rt; are(bytes.as_slice(), b"abc"));
    assert!(rt; bytes.len() == 3);
    assert!(rt; !bytes.is_empty());
    assert!(rt; is_copied_as(alloc, &bytes, b"abc")?);
    assert!(rt; Bytes::empty(alloc).is_empty());
    Ok(())
}

fn texts(alloc: Global) -> Result<Texts, AllocError> {
    let mut texts = Texts::new(alloc);
    texts.push(b"/program")?;
    texts.push(b"")?;
    Ok(texts)
}

fn has_text(texts: &Texts, index: usize, wanted: &[u8]) -> bool {
    match texts.get(index) {
        Some(text) => are(text, wanted),
        None => false,
    }
}

#[test]
fn texts_are_copied_whole(rt: HostRuntime) -> Result<(), Fail> {
    let alloc = rt.alloc();
    let copy = texts(alloc)?.copy(alloc)?;
    assert!(rt; copy.len() == 2);
    assert!(rt; has_text(&copy, 0, b"/program"));
    assert!(rt; has_text(&copy, 1, b""));
    assert!(rt; copy.get(2).is_none());
    Ok(())
}

fn entry(bytes: Bytes) -> Entry {
    let outcome = Outcome::Reply {
        errno: 0,
        bytes,
        place: Place::Pipe(4),
    };
    Entry {
        pid: 1,
        tid: 2,
        ran: 3,
        call: 17,
        outcome,
        signal: 0,
    }
}

fn is_same(copy: &Entry, entry: &Entry) -> bool {
    copy == entry
}

fn is_end(outcome: &Outcome) -> bool {
    *outcome == Outcome::Ended { process: true }
}

#[test]
fn an_entry_is_copied_whole(rt: HostRuntime) -> Result<(), Fail> {
    let alloc = rt.alloc();
    let entry = entry(Bytes::new(alloc, b"abc")?);
    assert!(rt; entry.weight() == 67);
    let copy = entry.copy(alloc)?;
    assert!(rt; is_same(&copy, &entry));
    assert!(rt; !is_end(&copy.outcome));
    Ok(())
}

#[test]
fn an_end_is_copied_whole(rt: HostRuntime) -> Result<(), Fail> {
    let ended = Outcome::Ended { process: true };
    let copy = ended.copy(rt.alloc())?;
    assert!(rt; is_end(&copy));
    Ok(())
}

/// Whether all is written; else the sink failed.
fn is_written<S: Sink>(sink: &mut S, bytes: &[u8]) -> bool {
    write_whole(sink, bytes) == Ok(())
}

fn takes<S: Sink>(sink: &mut S, piece: &[u8], wanted: Result<usize, Failed>) -> bool {
    sink.write(piece) == wanted
}

fn has_taken(sink: &MemSink, wanted: &[u8]) -> bool {
    are(sink.taken(), wanted)
}

/// A sink whose calls take three bytes at most, and whose third fails.
fn failing_sink(alloc: Global) -> Result<MemSink, AllocError> {
    MemSink::new(alloc, 20, 3, vec![in alloc; 3]?)
}

#[test]
fn a_sink_takes_pieces(rt: HostRuntime) -> Result<(), Fail> {
    let mut sink = failing_sink(rt.alloc())?;
    assert!(rt; !is_written(&mut sink, b"abcdefgh"));
    assert!(rt; has_taken(&sink, b"abcdef"));
    assert!(rt; is_written(&mut sink, b"ghij"));
    assert!(rt; is_written(&mut sink, b""));
    assert!(rt; has_taken(&sink, b"abcdefghij"));
    Ok(())
}

/// A sink of that room, whose calls take so many bytes at most.
fn sink_of(alloc: Global, room: usize, most: usize) -> Result<MemSink, AllocError> {
    MemSink::new(alloc, room, most, Vec::new(alloc))
}

#[test]
fn a_sink_has_room(rt: HostRuntime) -> Result<(), Fail> {
    let mut full = sink_of(rt.alloc(), 4, 3)?;
    assert!(rt; !is_written(&mut full, b"abcde"));
    assert!(rt; has_taken(&full, b"abc"));
    Ok(())
}

#[test]
fn a_sink_is_closed(rt: HostRuntime) -> Result<(), Fail> {
    let mut closed = sink_of(rt.alloc(), 4, 0)?;
    assert!(rt; takes(&mut closed, b"a", Err(Failed)));
    assert!(rt; takes(&mut closed, b"", Ok(0)));
    Ok(())
}

fn read_twice<S: Source>(
    source: &mut S,
    first: &mut [u8],
    second: &mut [u8],
) -> Result<(usize, usize), Failed>
    ensures count { OnOk result (S.faults source.new ≡ S.faults source.old) }
    ensures fault { OnErr result (Rose (S.faults source.old) (S.faults source.new)) }
    ensures next { IfOk result (λ n. S.left source.old ≡ preceded_by (preceded_by (S.left source.new) (take n.1 second.new)) (take n.0 first.new)) }
{
    let one = source.read(first)?;
    let two = source.read(second)?;
    Ok((one, two))
}

/// Whether two reads are answered so.
fn gives<S: Source>(
    source: &mut S,
    first: &mut [u8],
    second: &mut [u8],
    wanted: Result<(usize, usize), Failed>,
) -> bool {
    read_twice(source, first, second) == wanted
}

/// A source whose third call fails.
fn failing_source(alloc: Global) -> Result<MemSource, AllocError> {
    let fails = vec![in alloc; 3]?;
    Ok(MemSource::new(Bytes::new(alloc, b"abcde")?, fails))
}

#[test]
fn a_source_gives_its_bytes(rt: HostRuntime) -> Result<(), Fail> {
    let mut source = failing_source(rt.alloc())?;
    let mut first = [0; 2];
    let mut second = [0; 2];
    assert!(rt; gives(&mut source, &mut first, &mut second, Ok((2, 2))));
    assert!(rt; are(&first, b"ab"));
    assert!(rt; are(&second, b"cd"));
    assert!(rt; gives(&mut source, &mut first, &mut second, Err(Failed)));
    assert!(rt; gives(&mut source, &mut first, &mut second, Ok((1, 0))));
    assert!(rt; are(&first, b"eb"));
    Ok(())
}

fn copy_file<H: Shelf>(alloc: Global, shelf: &mut H, from: &str, to: &str) -> Result<(), ShelfError>
    ensures never_falls { H.faults shelf.old ≤ H.faults shelf.new }
    ensures count { OnOk result (H.faults shelf.new ≡ H.faults shelf.old) }
    ensures failed { result ≡ Err ShelfError.Failed → Rose (H.faults shelf.old) (H.faults shelf.new) }
    ensures copied { OnOk result (told_file (H.held shelf.new) to.now ≡ told_file (H.held shelf.old) from.now) }
{
    let bytes = shelf.read(alloc, from, 5)?;
    shelf.write(to, bytes.as_slice())?;
    Ok(())
}

/// Whether a copy of a file is answered so.
fn answers<H: Shelf>(
    alloc: Global,
    shelf: &mut H,
    from: &str,
    to: &str,
    wanted: Result<(), ShelfError>,
) -> bool {
    copy_file(alloc, shelf, from, to) == wanted
}

/// Whether a file has these bytes, where so many are read at most.
fn has<H: Shelf>(alloc: Global, shelf: &mut H, name: &str, limit: u64, wanted: &[u8]) -> bool {
    match shelf.read(alloc, name, limit) {
        Ok(bytes) => are(bytes.as_slice(), wanted),
        Err(_) => false,
    }
}

/// Whether a file is longer than so many bytes.
fn is_longer<H: Shelf>(alloc: Global, shelf: &mut H, name: &str, limit: u64) -> bool {
    match shelf.read(alloc, name, limit) {
        Err(ShelfError::TooLong) => true,
        _ => false,
    }
}

fn is_put<H: Shelf>(shelf: &mut H, name: &str, bytes: &[u8]) -> bool {
    shelf.write(name, bytes) == Ok(())
}

/// A shelf of two files, whose fourth call fails.
fn shelf(alloc: Global) -> Result<MemShelf, AllocError> {
    let mut shelf = MemShelf::new(alloc, 14, vec![in alloc; 4]?)?;
    shelf.put("a", b"old")?;
    shelf.put("b", b"longer")?;
    shelf.put("a", b"hello")?;
    Ok(shelf)
}

#[test]
fn a_shelf_holds_files(rt: HostRuntime) -> Result<(), Fail> {
    let alloc = rt.alloc();
    let mut shelf = shelf(alloc)?;
    assert!(rt; answers(alloc, &mut shelf, "a", "c", Ok(())));
    // The fourth call, which writes, fails.
    assert!(rt; answers(alloc, &mut shelf, "a", "d", Err(ShelfError::Failed)));
    assert!(rt; answers(alloc, &mut shelf, "b", "d", Err(ShelfError::TooLong)));
    assert!(rt; answers(alloc, &mut shelf, "d", "b", Err(ShelfError::Failed)));
    assert!(rt; answers(alloc, &mut shelf, "c", "b", Ok(())));
    assert!(rt; has(alloc, &mut shelf, "b", 5, b"hello"));
    assert!(rt; is_longer(alloc, &mut shelf, "b", 4));
    // Twelve of fourteen bytes are written by now.
    assert!(rt; !is_put(&mut shelf, "e", b"12"));
    assert!(rt; is_put(&mut shelf, "e", b"1"));
    assert!(rt; has(alloc, &mut shelf, "e", 1, b"1"));
    Ok(())
}
