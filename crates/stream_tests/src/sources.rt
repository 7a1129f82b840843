//! Tests of the source: its schema, its chunks behind a checked joint, how it ends, and what it says then.
ghost use Rattle.std.specs.Prelude.{◌≡◌, ◌≤◌, ◌<◌, ◌^◌, IsTrue, length};
ghost use Rattle.csv_source.specs.Sources.{source_state};
ghost use Rattle.stream_face.specs.Streams.{kept};
ghost use Rattle.unit_pass.specs.declared.pass.TheConstants.{ROOM};

use csv_read::{Records, read_header};
use csv_source::CsvSource;
use data_types::{RowFault, Typed};
use edge_io::OpenGate;
use raw_array::{Acted, RawArray};
use raw_schema::RawSchema;
use stage_plan::read_types;
use std::alloc::Global;
use std::fmt::Debug;
use std::process::Abort;
use std::thread::Threads;
use stream_face::{ArrayStream, NoTap, RawStream, Tap};
use unit_pass::{Audit, Desk, NoMemory, Pass, ROOM, SUPPLY, open_desk};

/// Expects what was wanted.
pub(crate) fn same<T: PartialEq + Debug>(rt: &impl Abort, found: &T, wanted: &T) {
    assert_eq!(rt; *found, *wanted);
}

// ---- a source

/// The source of a text under the types that are asked for.
fn source_of<'a>(
    rt: &impl Abort,
    alloc: Global,
    text: &'a [u8],
    asked: &str,
    batch: u32,
) -> CsvSource<&'a [u8]>
    requires short { length text.now ≤ 2 ^ 30 }
    requires some { 1 ≤ batch }
    requires few { batch ≤ 1000000 }
    ensures live { IsTrue (source_state result).live }
{
    let Ok(entries) = read_types(alloc, asked) else {
        panic!(rt; "the types are read");
    };
    let Ok(mut records) = Records::start(alloc, text) else {
        panic!(rt; "there is memory");
    };
    let Ok(columns) = read_header(alloc, &mut records, entries.as_slice()) else {
        panic!(rt; "the header is read");
    };
    match CsvSource::start(alloc, records, columns, b"", batch) {
        Ok(source) => source,
        Err(NoMemory) => panic!(rt; "there is memory"),
    }
}

/// The code of the next call, and how many rows its chunk has, where there is one.
fn pull<R: Threads + Sync, S: ArrayStream>(
    rt: &R,
    alloc: Global,
    source: &mut S,
    pass: &mut Pass,
) -> (i32, Option<i64>)
    requires live { IsTrue (S.state source.old).live }
    requires room { ROOM ≤ pass.old.units }
    ensures live { IsTrue (S.state source.new).live }
    ensures units { pass.new.units ≡ pass.old.units }
{
    let _supply = pass.units();
    let mut out = RawArray::released();
    let code = source.get_next(rt, alloc, &mut out, pass, &mut NoTap, &OpenGate);
    let rows = if out.is_released() {
        None
    } else {
        Some(out.length())
    };
    out.end(pass);
    (code, rows)
}

/// Releases a source, which keeps no unit, and gives it up.
pub(crate) fn end<S: ArrayStream>(rt: &impl Abort, source: S, pass: &mut Pass)
    requires { kept (S.state source) ≡ 0 }
{
    let mut source = source;
    let _supply = pass.units();
    let first = source.release(pass);
    let gone = source.is_released();
    let again = source.release(pass);
    source.discard();
    same(rt, &(first, gone, again), &(Acted::Acted, true, Acted::Was));
}

/// Closes the desk, to whose pass all units of this row are back.
pub(crate) fn closed(rt: &impl Abort, row: u32, desk: Desk, pass: Pass) -> Audit {
    assert!(rt; pass.units() == SUPPLY, "units under {row}");
    desk.close(pass)
}

// ---- the ends

/// A text, the size of a batch, how many rows the chunks have, and the record at fault with what is said of it.
pub(crate) type Case<'c> = (&'c [u8], u32, &'c [i64], Option<(RowFault, &'c str)>);

pub(crate) static CASES: [Case<'static>; 7] = [
    (b"a,b\n1,x\n2,y\n3,z\n4,\n5,v\n", 5, &[5], None),
    (b"a,b\n1,x\n2,y\n3,z\n4,\n5,v\n", 1000000, &[5], None),
    (b"a,b\n", 2, &[], None),
    (b"a,b\n\n1,x\n\n", 2, &[1], None),
    (
        b"a,b\n1,x\n2,y\n3,z\nv,w\n5,v\n",
        2,
        &[2],
        Some((
            RowFault::Field { row: 4, column: 1 },
            "record 4, column 1: not a value of its type",
        )),
    ),
    (
        b"a,b\n1,x\n2,y\n3\n4,z\n",
        2,
        &[2],
        Some((RowFault::Ragged { row: 3, found: 1 }, "record 3: 1 fields")),
    ),
    (
        b"a,b\n1\n2,y\n",
        2,
        &[],
        Some((RowFault::Ragged { row: 1, found: 1 }, "record 1: 1 fields")),
    ),
];

/// What a call answers: its code, how many rows its chunk has, what is said of it, and the record at fault.
type Reply<'r> = (i32, Option<i64>, Option<&'r str>, Option<RowFault>);

/// Expects this of the next call.
fn expect_reply<R: Abort + Threads + Sync, S: ArrayStream>(
    rt: &R,
    alloc: Global,
    source: &mut S,
    pass: &mut Pass,
    wanted: Reply<'_>,
) {
    assert!(rt; !source.is_released() && pass.units() >= ROOM);
    let (code, rows) = pull(rt, alloc, source, pass);
    let reply = (code, rows, source.get_last_error(), source.fault());
    same(rt, &reply, &wanted);
}

/// Expects chunks of this many rows.
pub(crate) fn expect_chunks<R: Abort + Threads + Sync, S: ArrayStream>(
    rt: &R,
    alloc: Global,
    source: &mut S,
    pass: &mut Pass,
    lengths: &[i64],
) {
    for length in lengths {
        expect_reply(rt, alloc, source, pass, (0, Some(*length), None, None));
    }
}

/// Expects the end of the stream, twice.
pub(crate) fn expect_end<R: Abort + Threads + Sync, S: ArrayStream>(
    rt: &R,
    alloc: Global,
    source: &mut S,
    pass: &mut Pass,
    wanted: Option<(RowFault, &str)>,
) {
    let reply = match wanted {
        None => (0, None, None, None),
        Some((fault, said)) => (22, None, Some(said), Some(fault)),
    };
    expect_reply(rt, alloc, source, pass, reply);
    expect_reply(rt, alloc, source, pass, reply);
}

/// Expects the chunks and the end of a case, behind which all units are back.
fn expect_case<R: Abort + Threads + Sync>(rt: &R, alloc: Global, case: Case<'_>) {
    let (text, batch, lengths, wanted) = case;
    assert!(rt; text.len() <= 100 && batch >= 1 && batch <= 1000000);
    let mut source = source_of(rt, alloc, text, "a:l", batch);
    let (desk, mut pass) = open_desk();
    expect_chunks(rt, alloc, &mut source, &mut pass, lengths);
    expect_end(rt, alloc, &mut source, &mut pass, wanted);
    end(rt, source, &mut pass);
    closed(rt, batch, desk, pass);
}

#[test]
fn a_record_that_spells_no_row_ends_the_stream(rt: HostRuntime) {
    for case in &CASES {
        expect_case(&rt, rt.alloc(), *case);
    }
}

// ---- the schema

/// Expects a column of this name and format.
fn expect_column(rt: &impl Abort, column: &RawSchema, name: &[u8], format: &[u8]) {
    assert!(rt; !column.is_released());
    let found = (column.name(), column.format());
    same(rt, &found, &(Some(name), format));
}

/// Expects the schema of a column of whole numbers and one of texts.
fn expect_schema(
    rt: &impl Abort,
    alloc: Global,
    source: &mut CsvSource<&'_ [u8]>,
    pass: &mut Pass,
) {
    assert!(rt; !source.is_released() && pass.units() >= ROOM);
    let _supply = pass.units();
    let mut schema = RawSchema::released();
    let code = source.get_schema(alloc, &mut schema, pass);
    assert!(rt; code == 0 && !schema.is_released() && schema.n_children() == 2);
    expect_column(rt, schema.child(0), b"a", b"l");
    expect_column(rt, schema.child(1), b"b", b"u");
    schema.end(pass);
}

/// The schema is given before the first chunk, between chunks and behind the last one, and no chunk is lost by it.
#[test]
fn schema_is_given_at_each_call(rt: HostRuntime) {
    let alloc = rt.alloc();
    let mut source = source_of(&rt, alloc, b"a,b\n1,x\n2,y\n", "a:l", 1);
    let (desk, mut pass) = open_desk();
    for lengths in [[].as_slice(), &[1], &[1]] {
        expect_schema(&rt, alloc, &mut source, &mut pass);
        expect_chunks(&rt, alloc, &mut source, &mut pass, lengths);
    }
    expect_end(&rt, alloc, &mut source, &mut pass, None);
    expect_schema(&rt, alloc, &mut source, &mut pass);
    end(&rt, source, &mut pass);
    let audit = closed(&rt, 1, desk, pass);
    same(&rt, &audit.nodes, &18);
}

// ---- the chunks

/// The buffers of a chunk of two columns.
#[derive(Drop)]
struct Sight {
    link: u32,
    rows: i64,
    nulls: i64,
    numbers: Vec<u8>,
    valid: Vec<u8>,
    offsets: Vec<u8>,
    text: Vec<u8>,
}

/// Keeps the buffers of each chunk.
#[derive(Drop)]
struct Sights {
    seen: Vec<Sight>,
}

/// A copy of the bytes of a column's buffer, and none where it is absent.
fn copied(alloc: Global, column: &RawArray, k: usize) -> Result<Vec<u8>, NoMemory>
    requires { k < 3 }
{
    if column.is_released() || k as i64 >= column.n_buffers() {
        return Ok(Vec::new(alloc));
    }
    match column.buffer(k) {
        None => Ok(Vec::new(alloc)),
        Some(bytes) => Ok(Vec::from_slice(alloc, bytes)?),
    }
}

/// The buffers of a chunk, where it has two columns.
fn sight_of(alloc: Global, link: u32, chunk: &RawArray) -> Result<Option<Sight>, NoMemory> {
    if chunk.is_released() || chunk.n_children() != 2 {
        return Ok(None);
    }
    let (first, second) = (chunk.child(0), chunk.child(1));
    if second.is_released() {
        return Ok(None);
    }
    Ok(Some(Sight {
        link,
        rows: chunk.length(),
        nulls: second.null_count(),
        numbers: copied(alloc, first, 1)?,
        valid: copied(alloc, second, 0)?,
        offsets: copied(alloc, second, 1)?,
        text: copied(alloc, second, 2)?,
    }))
}

impl Tap for Sights {
    ghost use Rattle.std.specs.Prelude.{None};

    ghost seen = { λ _. None };

    fn see(
        &mut self,
        alloc: Global,
        link: u32,
        _schema: &RawSchema,
        _typed: &Typed,
        chunk: &RawArray,
    ) -> Result<(), NoMemory> {
        match sight_of(alloc, link, chunk)? {
            None => Ok(()),
            Some(sight) => match self.seen.push(sight) {
                Ok(()) => Ok(()),
                Err(_failed) => Err(NoMemory),
            },
        }
    }
}

/// The rows of a chunk: its numbers, the validity bits of its texts, where one is null, the offsets and the bytes.
struct Wanted<'w> {
    numbers: &'w [u8],
    nulls: i64,
    valid: &'w [u8],
    offsets: &'w [u8],
    text: &'w [u8],
}

/// Five rows: the third text is null.
const ROWS: &[u8] = b"a,b\n1,x\n2,yy\n3,\n4,zzz\n-1,v\n";

/// The size of a batch, and the rows of each chunk ("Arrow Columnar Format", "Validity bitmaps", "Variable-size Binary Layout").
static BATCHES: [(u32, &[Wanted<'static>]); 3] = [
    (
        1,
        &[
            Wanted {
                numbers: &[1],
                nulls: 0,
                valid: &[],
                offsets: &[0, 0, 0, 0, 1, 0, 0, 0],
                text: b"x",
            },
            Wanted {
                numbers: &[2],
                nulls: 0,
                valid: &[],
                offsets: &[0, 0, 0, 0, 2, 0, 0, 0],
                text: b"yy",
            },
            Wanted {
                numbers: &[3],
                nulls: 1,
                valid: &[0],
                offsets: &[0, 0, 0, 0, 0, 0, 0, 0],
                text: b"",
            },
            Wanted {
                numbers: &[4],
                nulls: 0,
                valid: &[],
                offsets: &[0, 0, 0, 0, 3, 0, 0, 0],
                text: b"zzz",
            },
            Wanted {
                numbers: &[255],
                nulls: 0,
                valid: &[],
                offsets: &[0, 0, 0, 0, 1, 0, 0, 0],
                text: b"v",
            },
        ],
    ),
    (
        2,
        &[
            Wanted {
                numbers: &[1, 2],
                nulls: 0,
                valid: &[],
                offsets: &[0, 0, 0, 0, 1, 0, 0, 0, 3, 0, 0, 0],
                text: b"xyy",
            },
            Wanted {
                numbers: &[3, 4],
                nulls: 1,
                valid: &[2],
                offsets: &[0, 0, 0, 0, 0, 0, 0, 0, 3, 0, 0, 0],
                text: b"zzz",
            },
            Wanted {
                numbers: &[255],
                nulls: 0,
                valid: &[],
                offsets: &[0, 0, 0, 0, 1, 0, 0, 0],
                text: b"v",
            },
        ],
    ),
    (
        5,
        &[Wanted {
            numbers: &[1, 2, 3, 4, 255],
            nulls: 1,
            valid: &[27],
            offsets: &[
                0, 0, 0, 0, 1, 0, 0, 0, 3, 0, 0, 0, 3, 0, 0, 0, 6, 0, 0, 0, 7, 0, 0, 0,
            ],
            text: b"xyyzzzv",
        }],
    ),
];

/// The source behind a checked joint.
fn joint<'a>(
    rt: &impl Abort,
    alloc: Global,
    source: CsvSource<&'a [u8]>,
    link: u32,
    pass: &mut Pass,
) -> RawStream<CsvSource<&'a [u8]>>
    requires { IsTrue (source_state source).live }
{
    assert!(rt; pass.units() >= ROOM);
    match RawStream::start(alloc, source, link, pass) {
        Ok(stream) => stream,
        Err(_refused) => panic!(rt; "not started"),
    }
}

/// Expects this of the next call, whose units are back then: its code is 0, and its chunk has this many rows.
fn expect_next<R: Abort + Threads + Sync>(
    rt: &R,
    alloc: Global,
    stream: &mut RawStream<CsvSource<&'_ [u8]>>,
    pass: &mut Pass,
    sights: &mut Sights,
    (batch, wanted): (u32, Option<i64>),
) {
    assert!(rt; !stream.is_released() && pass.units() >= ROOM);
    let _supply = pass.units();
    let mut out = RawArray::released();
    let code = stream.next(rt, alloc, &mut out, pass, sights, &OpenGate);
    let rows = if out.is_released() {
        None
    } else {
        Some(out.length())
    };
    out.end(pass);
    same(rt, &(batch, code, rows), &(batch, 0, wanted));
}

/// Releases the stream, which keeps the schema of two columns alone, and gives it up.
fn ended(rt: &impl Abort, stream: RawStream<CsvSource<&'_ [u8]>>, pass: &mut Pass) {
    let mut stream = stream;
    assert!(rt; stream.schema().cost() == 3 && pass.units() == SUPPLY - 3);
    let first = stream.release(pass);
    let again = stream.release(pass);
    stream.discard();
    same(rt, &(first, again), &(Acted::Acted, Acted::Was));
}

/// What was shown of a chunk is what was wanted.
fn expect_sight(rt: &impl Abort, i: usize, sight: &Sight, wanted: &Wanted<'_>) {
    let rows = wanted.numbers.len() as i64;
    same(
        rt,
        &(i, sight.link, sight.rows, sight.nulls),
        &(i, 7, rows, wanted.nulls),
    );
    let buffers = [
        sight.numbers.as_slice(),
        sight.valid.as_slice(),
        sight.offsets.as_slice(),
        sight.text.as_slice(),
    ];
    same(
        rt,
        &(i, buffers),
        &(
            i,
            [wanted.numbers, wanted.valid, wanted.offsets, wanted.text],
        ),
    );
}

/// What was shown is what was wanted.
fn shows(rt: &impl Abort, sights: &[Sight], wanted: &[Wanted<'_>]) {
    assert_eq!(rt; sights.len(), wanted.len());
    for i in 0..sights.len() {
        expect_sight(rt, i, &sights[i], &wanted[i]);
    }
}

/// Expects these chunks of batches of this size and none behind them, and that they are shown.
fn expect_shown<R: Abort + Threads + Sync>(
    rt: &R,
    alloc: Global,
    stream: &mut RawStream<CsvSource<&'_ [u8]>>,
    pass: &mut Pass,
    batch: u32,
    wanted: &[Wanted<'_>],
) {
    let mut sights = Sights {
        seen: Vec::new(alloc),
    };
    for chunk in wanted {
        let rows = Some(chunk.numbers.len() as i64);
        expect_next(rt, alloc, stream, pass, &mut sights, (batch, rows));
    }
    expect_next(rt, alloc, stream, pass, &mut sights, (batch, None));
    shows(rt, sights.seen.as_slice(), wanted);
}

/// Expects the chunks of batches of this size, behind which all units are back.
fn expect_batches<R: Abort + Threads + Sync>(
    rt: &R,
    alloc: Global,
    batch: u32,
    wanted: &[Wanted<'_>],
) {
    assert!(rt; batch >= 1 && batch <= 1000000);
    let source = source_of(rt, alloc, ROWS, "a:c", batch);
    let (desk, mut pass) = open_desk();
    let mut stream = joint(rt, alloc, source, 7, &mut pass);
    expect_shown(rt, alloc, &mut stream, &mut pass, batch, wanted);
    ended(rt, stream, &mut pass);
    closed(rt, batch, desk, pass);
}

#[test]
fn chunks_pass_the_check_and_are_shown(rt: HostRuntime) {
    for (batch, wanted) in &BATCHES {
        expect_batches(&rt, rt.alloc(), *batch, *wanted);
    }
}
