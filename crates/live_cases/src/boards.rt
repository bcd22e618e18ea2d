// Boards, by one thread and by two.
ghost use Rattle.std.specs.Prelude.{◌≡◌, ℕ, List, length, IfSome, IsOk, IsTrue};
ghost use Rattle.guarded_update.specs.declared.update.Action.TheVariants.{Append};
ghost use Rattle.object_model.specs.Updates.{act};
ghost use Rattle.cow_tree.specs.Versions.{IsTreeIn};

use crate::telling::{Broken, add, add_number, decoded, digits_of, line, same};
use block_names::{Book, Hash160, Sha1Hash};
use bytes::Bytes;
use cow_tree::Tree;
use guarded_update::Action;
use pond_base::{Label, Version};
use std::alloc::Global;
use std::slice;
use std::sync::Wait;
use std::thread::{Threads, join};
use version_board::{
    BoardEntry, BoardFault, BoardNote, BoardRead, BoardReader, BoardWriter, open_board,
};

// What is done with a board.
enum Step {
    // A version of a label is appended, with its bytes in digits.
    Append(&'static str, u32, &'static str),
    Publish,
    // The reader learns a note of what is published.
    Tell,
    // The reader reads a label.
    Read(&'static str),
    // The reader's count is told.
    Shut,
}

// An object of these bytes.
fn tree_of(alloc: Global, digits: &str) -> Result<Tree, Broken> {
    let content = Bytes::from_vec(decoded(alloc, digits)?)?;
    let mut book = Book::new(alloc, Sha1Hash);
    let first = Tree::first(alloc, &mut book, 64)?;
    with_content(&mut book, &first, content)
}

// The next version, with these bytes behind the others.
fn with_content<H: Hash160 + Drop>(
    book: &mut Book<H>,
    tree: &Tree,
    content: Bytes,
) -> Result<Tree, Broken>
    requires { IsTreeIn H.naming book.old.held tree.now }
{
    let count = tree.bytes()?.len();
    if tree.root().version.0 > 1000 || !can_append(&content, count) {
        return Err(Broken::Unfit);
    }
    let edit = Action::Append { content };
    Ok(tree.apply(book, slice::from_ref(&edit))?)
}

fn can_append(content: &Bytes, count: usize) -> bool
    ensures { IsTrue result → (bytes : List ℕ) → length bytes ≡ count → IsOk (act (Append content.now) bytes) }
{
    count.saturating_add(content.len()) <= 1_048_576
}

fn append(
    alloc: Global,
    writer: &mut BoardWriter,
    label: &str,
    version: u32,
    digits: &str,
) -> Result<String, Broken>
    ensures { writer.new.board ≡ writer.old.board }
{
    let label = Label::read(label.as_bytes())?;
    let tree = tree_of(alloc, digits)?;
    let entry = BoardEntry {
        label,
        version: Version(version),
        tree,
    };
    writer.append(entry)?;
    line(alloc, "")
}

fn publish(rt: &impl Wait, alloc: Global, writer: &mut BoardWriter) -> Result<String, Broken>
    ensures { writer.new.board ≡ writer.old.board }
{
    writer.publish(rt)?;
    line(alloc, "")
}

fn tell(alloc: Global, writer: &BoardWriter, reader: &mut BoardReader) -> Result<String, Broken>
    requires { reader.old.board ≡ writer.now.board }
    ensures { reader.new.board ≡ reader.old.board }
{
    reader.learn(writer.tell());
    line(alloc, "")
}

fn read(alloc: Global, reader: &mut BoardReader, label: &str) -> Result<String, Broken>
    ensures { reader.new.board ≡ reader.old.board }
{
    let label = Label::read(label.as_bytes())?;
    match reader.read(&label) {
        Ok(Some(read)) => version_line(alloc, &read),
        Ok(None) => line(alloc, "none\n"),
        Err(BoardFault::Shut) => line(alloc, "turned away\n"),
        Err(BoardFault::Memory) => Err(Broken::Memory),
    }
}

fn version_line(alloc: Global, read: &BoardRead) -> Result<String, Broken> {
    let mut text = line(alloc, "")?;
    add_number(alloc, &mut text, "version ", u64::from(read.version.0))?;
    add_number(alloc, &mut text, " seen ", u64::from(read.seen))?;
    add_bytes(alloc, &mut text, &read.bytes)?;
    Ok(text)
}

fn add_bytes(alloc: Global, text: &mut String, bytes: &[u8]) -> Result<(), Broken> {
    text.push_str(" ")?;
    add(text, digits_of(alloc, bytes))?;
    text.push_str("\n")?;
    Ok(())
}

fn shut(alloc: Global, reader: &BoardReader) -> Result<String, Broken> {
    let mut text = line(alloc, "")?;
    add_number(alloc, &mut text, "shut ", reader.shut())?;
    text.push_str("\n")?;
    Ok(text)
}

fn take_step(
    rt: &impl Wait,
    alloc: Global,
    writer: &mut BoardWriter,
    reader: &mut BoardReader,
    step: &Step,
) -> Result<String, Broken>
    requires { reader.old.board ≡ writer.old.board }
    ensures { reader.new.board ≡ writer.new.board }
{
    match step {
        Step::Append(label, version, digits) => append(alloc, writer, label, *version, digits),
        Step::Publish => publish(rt, alloc, writer),
        Step::Tell => tell(alloc, writer, reader),
        Step::Read(label) => read(alloc, reader, label),
        Step::Shut => shut(alloc, reader),
    }
}

fn take_steps(
    rt: &impl Wait,
    alloc: Global,
    writer: &mut BoardWriter,
    reader: &mut BoardReader,
    steps: &[Step],
) -> Result<String, Broken>
    requires { reader.old.board ≡ writer.old.board }
{
    let mut text = line(alloc, "")?;
    for step in steps {
        add(&mut text, take_step(rt, alloc, writer, reader, step))?;
    }
    Ok(text)
}

// What comes of steps on a new board, with one reader.
fn run(rt: &impl Wait, alloc: Global, steps: &[Step]) -> Result<String, Broken> {
    let (mut writer, mut readers) = open_board(rt, alloc, 1)?;
    let told = match readers.pop() {
        Some(mut reader) => take_steps(rt, alloc, &mut writer, &mut reader, steps),
        None => Err(Broken::Unfit),
    };
    writer.close(rt);
    told
}

const STEPS: &[Step] = &[
    Step::Append("a", 1, "61"),
    Step::Append("a", 2, "6162"),
    Step::Publish,
    Step::Append("a", 3, "616263"),
    Step::Read("a"),
    Step::Read("b"),
    Step::Publish,
    Step::Tell,
    Step::Read("a"),
    Step::Shut,
];

#[test]
fn one_thread_publishes_and_reads(rt: HostRuntime) {
    same(
        &rt,
        run(&rt, rt.alloc(), STEPS),
        "version 2 seen 2 6162\nnone\nversion 3 seen 3 616263\nshut 0\n",
    );
}

// Publishes a hundred versions one by one, and tells a note of the last list, where all went well.
fn publish_each<R: Wait>(
    rt: &R,
    writer: &mut BoardWriter,
    label: Label,
    tree: &Tree,
) -> Option<BoardNote>
    ensures { IfSome result (λ note. note.board ≡ writer.old.board) }
{
    for version in 1..101u32 {
        if publish_one(rt, writer, label, version, tree).is_err() {
            return None;
        }
    }
    Some(writer.tell())
}

fn publish_one<R: Wait>(
    rt: &R,
    writer: &mut BoardWriter,
    label: Label,
    version: u32,
    tree: &Tree,
) -> Result<(), Broken>
    ensures { writer.new.board ≡ writer.old.board }
{
    let tree = tree.share()?;
    let entry = BoardEntry {
        label,
        version: Version(version),
        tree,
    };
    writer.append(entry)?;
    writer.publish(rt)?;
    Ok(())
}

// Reads a label many times, and says whether what was seen never fell.
fn read_rising(reader: BoardReader, label: Label) -> (BoardReader, bool)
    ensures { result.0.board ≡ reader.board }
{
    let mut reader = reader;
    let mut seen = 0;
    let mut rises = true;
    for _read in 0..500u32 {
        match reader.read(&label) {
            Ok(Some(read)) => {
                rises = rises && seen <= read.seen;
                seen = read.seen;
            }
            Ok(None) => rises = rises && seen == 0,
            Err(_) => rises = false,
        }
    }
    (reader, rises)
}

// The writer publishes in one thread while the reader reads in another. The reader comes back where all
// was published and what it saw never fell, and has then learnt the last note.
fn beside<R: Threads + Wait + Sync>(
    rt: &R,
    writer: &mut BoardWriter,
    reader: BoardReader,
    label: Label,
    tree: &Tree,
) -> Option<BoardReader>
    requires { reader.board ≡ writer.old.board }
{
    let (note, (reader, rises)) = join(
        rt,
        || publish_each(rt, writer, label, tree),
        move || read_rising(reader, label),
    );
    let note = note?;
    let mut reader = reader;
    reader.learn(note);
    if rises { Some(reader) } else { None }
}

// What is read after the last note, and how often the reader was turned away.
fn run_beside<R: Threads + Wait + Sync>(
    rt: &R,
    alloc: Global,
    writer: &mut BoardWriter,
    reader: BoardReader,
) -> Result<String, Broken>
    requires { reader.board ≡ writer.old.board }
{
    let label = Label::read(b"a")?;
    let tree = tree_of(alloc, "6162")?;
    match beside(rt, writer, reader, label, &tree) {
        Some(mut reader) => {
            let mut text = read(alloc, &mut reader, "a")?;
            add(&mut text, shut(alloc, &reader))?;
            Ok(text)
        }
        None => line(alloc, "it fell\n"),
    }
}

fn two_threads<R: Threads + Wait + Sync>(rt: &R, alloc: Global) -> Result<String, Broken> {
    let (mut writer, mut readers) = open_board(rt, alloc, 1)?;
    let told = match readers.pop() {
        Some(reader) => run_beside(rt, alloc, &mut writer, reader),
        None => Err(Broken::Unfit),
    };
    writer.close(rt);
    told
}

#[test]
fn a_reader_beside_a_writer(rt: HostRuntime) {
    same(
        &rt,
        two_threads(&rt, rt.alloc()),
        "version 100 seen 100 6162\nshut 0\n",
    );
}
