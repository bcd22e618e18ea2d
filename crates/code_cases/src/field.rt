// Products, inverses and quotients of bytes.
use crate::telling::holds;
use gf256::{bytes_are_a_field, div, inv, mul};

// Two bytes and their product.
const PRODUCTS: &[(u8, u8, u8)] = &[
    (0x02, 0x80, 0x1d),
    (0x53, 0xca, 0x8f),
    (0xff, 0xff, 0xe2),
    (0x00, 0x9d, 0x00),
    (0x9d, 0x00, 0x00),
    (0x9d, 0x01, 0x9d),
];

// A byte and its inverse.
const INVERSES: &[(u8, u8)] = &[
    (0x01, 0x01),
    (0x02, 0x8e),
    (0x03, 0xf4),
    (0x04, 0x47),
    (0x05, 0xa7),
    (0x06, 0x7a),
    (0x07, 0xba),
];

// Two bytes, and the first divided by the second.
const QUOTIENTS: &[(u8, u8, u8)] = &[
    (0x1d, 0x02, 0x80),
    (0x01, 0x03, 0xf4),
    (0x00, 0x07, 0x00),
    (0x8f, 0xca, 0x53),
];

// The inverse of a byte that has one.
fn inverse(a: u8) -> Option<u8> {
    if a == 0 { None } else { Some(inv(a)) }
}

fn quotient(a: u8, b: u8) -> Option<u8> {
    if b == 0 { None } else { Some(div(a, b)) }
}

#[test]
fn products_inverses_and_quotients(rt: HostRuntime) {
    for (a, b, product) in PRODUCTS {
        holds(&rt, mul(*a, *b) == *product, "a row of products");
    }
    for (a, expected) in INVERSES {
        holds(&rt, inverse(*a) == Some(*expected), "a row of inverses");
    }
    for (a, b, expected) in QUOTIENTS {
        holds(
            &rt,
            quotient(*a, *b) == Some(*expected),
            "a row of quotients",
        );
    }
    bytes_are_a_field();
}
