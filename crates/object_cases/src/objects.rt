// Requests as strings, and what came of them as text, with names that another program gave.
ghost use Rattle.std.specs.Prelude.{OnOk};
ghost use Rattle.object_fold.specs.Executed.{AreKnown};

use crate::telling::{Broken, add, add_number, decoded, digits_of, digits_of_name, line, same};
use block_names::{Book, Hash160, Sha1Hash};
use cow_tree::Tree;
use object_fold::{Objects, Outcome, made_strings_are_held, objects_stay_known, versions_are_few};
use pond_base::{Label, Name, Version};
use std::alloc::Global;

// Requests in hexadecimal digits, and what is told of them: the outcome of each, the bytes of each
// version that was made, the newest versions of `a` and `c`, the number of namings, version 0 of `a`, and
// whether `a` has a version after its newest.
const CASES: &[(&[&str], &str)] = &[
    // Append `hi`; if version 0 then append 61, or if size 2 then append 62; the same with 63 and 64.
    (
        &[
            "060000000001016101000102000000026869",
            "0600000000020161020101000000000102000000016101020000000201020000000162",
            "0600000000030161020101000000000102000000016301020000000201020000000164",
        ],
        "made 1 f22c5e9077740fd0378f808ae3acb816a0aa432d\n\
         made 2 76ba67bd828475bcf503fd5d56742052a38918c7\n\
         no clause\n\
         61 1 6869\n61 2 686962\nnewest 2 0 namings 5 first - next false\n",
    ),
    // Append 6a and then replace 9 00.
    (
        &[
            "060000000001016101000102000000026869",
            "060000000002016101000202000000016a01000000090000000100",
        ],
        "made 1 f22c5e9077740fd0378f808ae3acb816a0aa432d\nout of range\n\
         61 1 6869\nnewest 1 0 namings 3 first - next false\n",
    ),
    // If block 0 6869 then append 21, or append 3f.
    (
        &[
            "060000000001016101000102000000026869",
            "0600000000020161020103000000006574031769079b0b98692c90a08e32a77c7affb6\
             01020000000121000102000000013f",
        ],
        "made 1 f22c5e9077740fd0378f808ae3acb816a0aa432d\n\
         made 2 5ce825c2217861adc63999dde725bf33c52d4352\n\
         61 1 6869\n61 2 686921\nnewest 2 0 namings 5 first - next false\n",
    ),
    // Append 68656c6c6f, splice 1 3 61, delete 3 1, delete 0 3.
    (
        &[
            "0600000000010161010001020000000568656c6c6f",
            "08000000000201610100010400000001000000030000000161",
            "080000000003016101000104000000030000000100000000",
            "080000000004016101000104000000000000000300000000",
        ],
        "made 1 c6cbb23c4c484cd9224c453e290c25a290336ba9\n\
         made 2 01fb9e584556118534f4c0eb03cffb258fadb05a\n\
         out of range\n\
         made 3 357d1b61ebf04dc3b930c30c4bbacab9dcb4111c\n\
         61 1 68656c6c6f\n61 2 68616f\n61 3 \nnewest 3 0 namings 6 first - next false\n",
    ),
    // Client 1 truncates `b` to 0 bytes as its own request 1, which is no repeat.
    (
        &[
            "060000000001016101000102000000026869",
            "060000000001016101000102000000026869",
            "06010000000101620100010300000000",
            "06010000000101620100010300000000",
        ],
        "made 1 f22c5e9077740fd0378f808ae3acb816a0aa432d\nrepeat\n\
         made 1 3e3a90518871e4187f8cef78c4ef4269bacb563a\nrepeat\n\
         61 1 6869\n62 1 \nnewest 1 0 namings 4 first - next false\n",
    ),
];

// Executes a request that is spelled by bytes, and tells its outcome.
pub fn run<H: Hash160 + Drop>(
    alloc: Global,
    book: &mut Book<H>,
    objects: &mut Objects,
    bytes: &[u8],
) -> Result<String, Broken>
    requires { AreKnown H.naming book.old.held objects.old }
    ensures { OnOk result (AreKnown H.naming book.new.held objects.new) }
{
    let request = guarded_update::read(alloc, bytes)?;
    if objects.made().len() >= 1000 {
        return Err(Broken::Unfit);
    }
    told(alloc, objects.execute(book, &request)?)
}

// An outcome as a line.
fn told(alloc: Global, outcome: Outcome) -> Result<String, Broken> {
    match outcome {
        Outcome::Made { version, name } => made(alloc, version.0, name),
        Outcome::NoClause => line(alloc, "no clause\n"),
        Outcome::OutOfRange => line(alloc, "out of range\n"),
        Outcome::TooLong => line(alloc, "too long\n"),
        Outcome::Repeat => line(alloc, "repeat\n"),
    }
}

fn made(alloc: Global, version: u32, name: Name) -> Result<String, Broken> {
    let mut text = String::new(alloc);
    add_number(alloc, &mut text, "made ", version as u64)?;
    text.push_str(" ")?;
    add(&mut text, digits_of_name(alloc, name))?;
    text.push_str("\n")?;
    Ok(text)
}

fn run_digits<H: Hash160 + Drop>(
    alloc: Global,
    book: &mut Book<H>,
    objects: &mut Objects,
    digits: &str,
) -> Result<String, Broken>
    requires { AreKnown H.naming book.old.held objects.old }
    ensures { OnOk result (AreKnown H.naming book.new.held objects.new) }
{
    let bytes = decoded(alloc, digits)?;
    run(alloc, book, objects, bytes.as_slice())
}

// Executes requests, and tells the outcome of each.
fn run_all<H: Hash160 + Drop>(
    alloc: Global,
    book: &mut Book<H>,
    objects: &mut Objects,
    rows: &[&str],
    out: &mut String,
) -> Result<(), Broken>
    requires { AreKnown H.naming book.old.held objects.old }
{
    for digits in rows {
        let line = run_digits(alloc, book, objects, digits)?;
        out.push_str(line.as_str())?;
    }
    Ok(())
}

// Tells the bytes of each version that was made.
fn tell_versions(alloc: Global, objects: &Objects, out: &mut String) -> Result<(), Broken> {
    for (label, version) in objects.made() {
        tell_version(alloc, objects, label, *version, out)?;
    }
    Ok(())
}

fn tell_version(
    alloc: Global,
    objects: &Objects,
    label: &Label,
    version: Version,
    out: &mut String,
) -> Result<(), Broken> {
    add(out, digits_of(alloc, label.bytes()))?;
    add_number(alloc, out, " ", version.0 as u64)?;
    out.push_str(" ")?;
    add(out, version_digits(alloc, objects, label, version))?;
    out.push_str("\n")?;
    Ok(())
}

// The bytes of a version.
fn version_digits(
    alloc: Global,
    objects: &Objects,
    label: &Label,
    version: Version,
) -> Result<String, Broken> {
    match objects.tree(label, version) {
        Some(tree) => tree_digits(alloc, tree),
        None => Err(Broken::Unfit),
    }
}

fn tree_digits(alloc: Global, tree: &Tree) -> Result<String, Broken> {
    let bytes = tree.bytes()?;
    digits_of(alloc, bytes.as_slice())
}

fn newest(objects: &Objects, label: &[u8]) -> Result<u32, Broken> {
    let label = Label::read(label)?;
    Ok(objects.last(&label).0)
}

fn next(objects: &Objects, label: &Label) -> &'static str {
    let next = objects.last(label).0.wrapping_add(1);
    match objects.tree(label, Version(next)) {
        Some(_) => "true",
        None => "false",
    }
}

fn tell_ends(alloc: Global, objects: &Objects, out: &mut String) -> Result<(), Broken> {
    let label = Label::read(b"a")?;
    out.push_str(" first ")?;
    add(out, version_digits(alloc, objects, &label, Version(0)))?;
    out.push_str("- next ")?;
    out.push_str(next(objects, &label))?;
    out.push_str("\n")?;
    Ok(())
}

fn tell_last(
    alloc: Global,
    objects: &Objects,
    namings: u64,
    out: &mut String,
) -> Result<(), Broken> {
    add_number(alloc, out, "newest ", newest(objects, b"a")? as u64)?;
    add_number(alloc, out, " ", newest(objects, b"c")? as u64)?;
    add_number(alloc, out, " namings ", namings)
}

// What is told of a case, with a book and objects in which nothing was made.
fn tell_in<H: Hash160 + Drop>(
    alloc: Global,
    book: &mut Book<H>,
    objects: &mut Objects,
    rows: &[&str],
) -> Result<String, Broken>
    requires { AreKnown H.naming book.old.held objects.old }
{
    let mut out = String::new(alloc);
    run_all(alloc, book, objects, rows, &mut out)?;
    tell_versions(alloc, objects, &mut out)?;
    tell_last(alloc, objects, book.namings(), &mut out)?;
    tell_ends(alloc, objects, &mut out)?;
    Ok(out)
}

// What is told of a case.
fn tell(alloc: Global, rows: &[&str]) -> Result<String, Broken> {
    let mut book = Book::new(alloc, Sha1Hash);
    let mut objects = Objects::new(alloc, &mut book, 64)?;
    tell_in(alloc, &mut book, &mut objects, rows)
}

#[test]
fn cases(rt: HostRuntime) {
    for (rows, text) in CASES {
        same(&rt, tell(rt.alloc(), rows), text);
    }
}

#[test]
fn laws() {
    objects_stay_known();
    versions_are_few();
    made_strings_are_held();
}
