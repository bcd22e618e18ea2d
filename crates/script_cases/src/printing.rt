// What is printed of values before anything happened, and of a delivery.
use block_names::{Book, Sha1Hash};
use circular_buffer::HeapCircularBuffer;
use client_core::Client;
use object_fold::Objects;
use pond_base::{ClientId, Label, MemberId, Party, Version};
use pond_node::Node;
use script_printing::{client_text, faulty_text, member_text, read_text, recent_text, shape_text};
use std::alloc::Global;
use std::collections::BTreeMap;
use std::test::Fail;

fn recent(alloc: Global) -> Result<String, Fail> {
    let mut recent = HeapCircularBuffer::with_capacity(alloc, 8)?;
    recent.push_back((Party::Member(MemberId(3)), Party::Client(ClientId(0)), 2u32));
    Ok(recent_text(alloc, &recent)?)
}

fn client(alloc: Global) -> Result<String, Fail> {
    let client = Client::new(alloc, ClientId(0), 0)?;
    Ok(client_text(alloc, ClientId(0), &client, &BTreeMap::new(alloc))?)
}

fn member(alloc: Global) -> Result<String, Fail> {
    let mut book = Book::new(alloc, Sha1Hash);
    let node = Node::new(alloc, &mut book, MemberId(2), 1, 1, 64)?;
    Ok(member_text(alloc, MemberId(2), &node)?)
}

fn tell_object(alloc: Global, objects: &Objects, out: &mut String) -> Result<(), Fail> {
    let label = Label::read(b"a")?;
    out.push_str(read_text(alloc, objects, &label, None)?.as_str())?;
    out.push_str(shape_text(alloc, objects, &label, Version(1))?.as_str())?;
    Ok(())
}

fn object(alloc: Global) -> Result<String, Fail> {
    let mut book = Book::new(alloc, Sha1Hash);
    let objects = Objects::new(alloc, &mut book, 64)?;
    let mut out = String::new(alloc);
    tell_object(alloc, &objects, &mut out)?;
    Ok(out)
}

#[test]
fn before_any_request(rt: HostRuntime) -> Result<(), Fail> {
    let alloc = rt.alloc();
    assert_eq!(rt; recent(alloc)?.as_str(), "recent 1\nm3 c0 2\n");
    assert_eq!(rt;
        faulty_text(alloc, MemberId(3))?.as_str(),
        "member 3 faulty\n"
    );
    assert_eq!(rt; client(alloc)?.as_str(), "client 0 requests 0\n");
    assert_eq!(rt; member(alloc)?.as_str(), "member 2 executed 0\n");
    assert_eq!(rt; object(alloc)?.as_str(), "no heart\nno version\n");
    Ok(())
}
