// Requests that come in another order than their numbers.
ghost use Rattle.member_orders.specs.Views.{IsWhole};

use crate::telling::{Broken, add_number, bytes_of, same};
use bytes::Bytes;
use member_orders::Orders;
use ring_message::Message;
use std::alloc::Global;

// Requests 2, 1 and 2 of client 0, request 1 of client 1, and the slots that each is owed.
const ORDERS: &[(&str, &str)] = &[
    ("060000000002016101000102000000026869", ""),
    ("060000000001016101000102000000026869", "1 2 "),
    ("060000000002016101000102000000026869", ""),
    ("060100000001016201000102000000026869", "3 "),
];

fn order(alloc: Global, orders: &mut Orders, digits: &str) -> Result<Vec<Message>, Broken>
    requires { IsWhole orders.old }
    ensures { IsWhole orders.new }
{
    let string = bytes_of(alloc, digits)?;
    order_string(alloc, orders, string)
}

fn order_string(alloc: Global, orders: &mut Orders, string: Bytes) -> Result<Vec<Message>, Broken>
    requires { IsWhole orders.old }
    ensures { IsWhole orders.new }
{
    let request = guarded_update::read(alloc, string.as_slice())?;
    if request.client.0 > 15 {
        return Err(Broken::Unfit);
    }
    Ok(orders.take(alloc, request.client, request.number, string)?)
}

fn add_slot(alloc: Global, slots: &mut String, message: &Message) -> Result<(), Broken> {
    match message {
        Message::PrePrepare { seq, .. } => add_number(alloc, slots, "", seq.0 as u64)?,
        _ => return Err(Broken::Unfit),
    }
    slots.push_str(" ")?;
    Ok(())
}

fn slots(alloc: Global, messages: &[Message]) -> Result<String, Broken> {
    let mut slots = String::new(alloc);
    for message in messages {
        add_slot(alloc, &mut slots, message)?;
    }
    Ok(slots)
}

fn told(alloc: Global, orders: &mut Orders, digits: &str) -> Result<String, Broken>
    requires { IsWhole orders.old }
    ensures { IsWhole orders.new }
{
    let messages = order(alloc, orders, digits)?;
    slots(alloc, messages.as_slice())
}

#[test]
fn requests_become_next(rt: HostRuntime) {
    let mut orders = Orders::new(rt.alloc());
    for (digits, text) in ORDERS {
        same(&rt, told(rt.alloc(), &mut orders, digits), text);
    }
}
