// What a client sends, and what it believes of what members tell it.
use crate::telling::{
    Broken, add, add_number, bytes_of, decoded, digits_of, digits_of_name, line, same,
};
use block_names::{Book, Sha1Hash};
use client_core::Client;
use pond_base::{ClientId, MemberId, Name, Party, Version};
use ring_message::{Out, Outcome};
use std::alloc::Global;

const M0: Party = Party::Member(MemberId(0));

const M1: Party = Party::Member(MemberId(1));

const M2: Party = Party::Member(MemberId(2));

const M3: Party = Party::Member(MemberId(3));

const C3: Party = Party::Client(ClientId(3));

// Request 1 made version 1, whose root has a name of twenty times 07; request 1 was a repeat; and of the
// object 01.. version 5 has the root 07.., and version 4 the manifest 08...
const MADE: &str = "15000000010100000001\
    0707070707070707070707070707070707070707";

const REPEAT: &str = "150000000105";

const HEART: &str = "160101010101010101010101010101010101010101\
    000000050707070707070707070707070707070707070707";

const SEALED: &str = "170101010101010101010101010101010101010101\
    000000040808080808080808080808080808080808080808";

// What happens to a client: bytes from a party, an update as the request that it becomes, or a request
// that it sends again.
enum Step {
    Take(Party, &'static str),
    Submit(&'static str),
    Resubmit(u32),
}

// A client of a ring that tolerates so many faults, what happens to it, and what is told: what it sends at
// each step and which outcome of request 1 it then believes, and at the end how many requests it
// submitted, those of the numbers 0 to 2, the outcome of request 2, and the newest heart and seal of the
// object 01...
const CASES: &[(u8, u8, &[Step], &str)] = &[
    // The first outcome of two members stays.
    (
        2,
        1,
        &[
            Step::Take(M0, MADE),
            Step::Take(M0, MADE),
            Step::Take(C3, MADE),
            Step::Take(M3, MADE),
            Step::Take(M1, REPEAT),
            Step::Take(M2, REPEAT),
        ],
        "none\nnone\nnone\n\
         made 1 0707070707070707070707070707070707070707\n\
         made 1 0707070707070707070707070707070707070707\n\
         made 1 0707070707070707070707070707070707070707\n\
         0 none none none\nnone\nheart none\nseal none\n",
    ),
    // Hearts and seals are told apart.
    (
        0,
        0,
        &[Step::Take(M0, HEART), Step::Take(M0, SEALED)],
        "none\nnone\n0 none none none\nnone\n\
         heart 5 0707070707070707070707070707070707070707\n\
         seal 4 0808080808080808080808080808080808080808\n",
    ),
    // A request goes to each member, and once more.
    (
        0,
        1,
        &[
            Step::Submit("060000000001016101000102000000026869"),
            Step::Resubmit(1),
        ],
        "m0 11060000000001016101000102000000026869\n\
         m1 11060000000001016101000102000000026869\n\
         m2 11060000000001016101000102000000026869\n\
         m3 11060000000001016101000102000000026869\n\
         none\n\
         m0 11060000000001016101000102000000026869\n\
         m1 11060000000001016101000102000000026869\n\
         m2 11060000000001016101000102000000026869\n\
         m3 11060000000001016101000102000000026869\n\
         none\n\
         1 none 060000000001016101000102000000026869 none\nnone\nheart none\nseal none\n",
    ),
];

fn submit(
    alloc: Global,
    client: &mut Client,
    book: &mut Book<Sha1Hash>,
    digits: &str,
) -> Result<Vec<Out>, Broken> {
    let string = decoded(alloc, digits)?;
    let request = guarded_update::read(alloc, string.as_slice())?;
    if client.submitted() >= 65_536 || !guarded_update::update_fits(&request.update) {
        return Err(Broken::Unfit);
    }
    Ok(client.submit(book, request.label, request.update)?)
}

fn resubmit(client: &Client, number: u32) -> Result<Vec<Out>, Broken> {
    if number < 1 || number > client.submitted() {
        return Err(Broken::Unfit);
    }
    Ok(client.resubmit(number)?)
}

fn take(alloc: Global, client: &mut Client, from: Party, digits: &str) -> Result<Vec<Out>, Broken> {
    let bytes = bytes_of(alloc, digits)?;
    client.take(from, &bytes)?;
    Ok(Vec::new(alloc))
}

fn after(
    alloc: Global,
    client: &mut Client,
    book: &mut Book<Sha1Hash>,
    step: &Step,
) -> Result<Vec<Out>, Broken> {
    match step {
        Step::Take(from, digits) => take(alloc, client, *from, digits),
        Step::Submit(digits) => submit(alloc, client, book, digits),
        Step::Resubmit(number) => resubmit(client, *number),
    }
}

fn add_sent(alloc: Global, text: &mut String, out: &Out) -> Result<(), Broken> {
    match out.to {
        Party::Member(member) => add_number(alloc, text, "m", member.0 as u64)?,
        Party::Client(_) => return Err(Broken::Unfit),
    }
    text.push_str(" ")?;
    add(text, digits_of(alloc, out.bytes.as_slice()))?;
    text.push_str("\n")?;
    Ok(())
}

fn tell_sent(alloc: Global, outs: &[Out], text: &mut String) -> Result<(), Broken> {
    for out in outs {
        add_sent(alloc, text, out)?;
    }
    Ok(())
}

// A number and a name after a word.
fn marked(alloc: Global, word: &str, value: u32, name: Name) -> Result<String, Broken> {
    let mut text = line(alloc, word)?;
    add_number(alloc, &mut text, " ", value as u64)?;
    text.push_str(" ")?;
    add(&mut text, digits_of_name(alloc, name))?;
    text.push_str("\n")?;
    Ok(text)
}

fn outcome_line(alloc: Global, outcome: Option<&Outcome>) -> Result<String, Broken> {
    match outcome {
        Some(Outcome::Made { version, name }) => marked(alloc, "made", version.0, *name),
        Some(Outcome::Repeat) => line(alloc, "repeat\n"),
        Some(_) => Err(Broken::Unfit),
        None => line(alloc, "none\n"),
    }
}

fn run(
    alloc: Global,
    client: &mut Client,
    book: &mut Book<Sha1Hash>,
    steps: &[Step],
    text: &mut String,
) -> Result<(), Broken> {
    for step in steps {
        run_step(alloc, client, book, step, text)?;
    }
    Ok(())
}

fn run_step(
    alloc: Global,
    client: &mut Client,
    book: &mut Book<Sha1Hash>,
    step: &Step,
    text: &mut String,
) -> Result<(), Broken> {
    let outs = after(alloc, client, book, step)?;
    tell_sent(alloc, outs.as_slice(), text)?;
    add(text, outcome_line(alloc, client.outcome(1)))
}

fn request(alloc: Global, client: &Client, number: u32) -> Result<String, Broken> {
    match client.request(number) {
        Some(string) => digits_of(alloc, string.as_slice()),
        None => line(alloc, "none"),
    }
}

fn tell_requests(alloc: Global, client: &Client, text: &mut String) -> Result<(), Broken> {
    add_number(alloc, text, "", client.submitted() as u64)?;
    for number in 0..3 {
        text.push_str(" ")?;
        add(text, request(alloc, client, number))?;
    }
    text.push_str("\n")?;
    Ok(())
}

fn add_newest(
    alloc: Global,
    text: &mut String,
    word: &str,
    newest: Option<(Version, Name)>,
) -> Result<(), Broken> {
    match newest {
        Some((version, name)) => add(text, marked(alloc, word, version.0, name)),
        None => add_none(text, word),
    }
}

fn add_none(text: &mut String, word: &str) -> Result<(), Broken> {
    text.push_str(word)?;
    text.push_str(" none\n")?;
    Ok(())
}

fn tell_versions(alloc: Global, client: &Client, text: &mut String) -> Result<(), Broken> {
    let object = Name::from_bytes([1; 20]);
    add(text, outcome_line(alloc, client.outcome(2)))?;
    add_newest(alloc, text, "heart", client.hearts().newest(object))?;
    add_newest(alloc, text, "seal", client.seals().newest(object))
}

fn tell(
    alloc: Global,
    client: &mut Client,
    book: &mut Book<Sha1Hash>,
    steps: &[Step],
) -> Result<String, Broken> {
    let mut text = String::new(alloc);
    run(alloc, client, book, steps, &mut text)?;
    tell_requests(alloc, client, &mut text)?;
    tell_versions(alloc, client, &mut text)?;
    Ok(text)
}

fn told(alloc: Global, id: u8, f: u8, steps: &[Step]) -> Result<String, Broken> {
    if id > 15 || f > 3 {
        return Err(Broken::Unfit);
    }
    let mut book = Book::new(alloc, Sha1Hash);
    let mut client = Client::new(alloc, ClientId(id), f)?;
    tell(alloc, &mut client, &mut book, steps)
}

#[test]
fn cases(rt: HostRuntime) {
    for (id, f, steps, text) in CASES {
        same(&rt, told(rt.alloc(), *id, *f, steps), text);
    }
}
