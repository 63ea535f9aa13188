// Fields, numbers and their texts.
use ct_field::{in_range, is_type, push_field, read_field, rescale, write_field};
use ct_value::{Bytes, Ty, Value};
use std::alloc::Global;

const MONEY: Ty = Ty::Decimal { p: 10, s: 2 };

fn is_pushed(alloc: Global, value: &Value) -> bool {
    let mut line = Bytes::new(alloc);
    push_field(alloc, &mut line, MONEY, value).is_ok() && line.is(b"12.50")
}

fn is_written(alloc: Global, value: &Value) -> bool {
    match write_field(alloc, MONEY, value) {
        Ok(text) => text.is(b"12.50") && is_pushed(alloc, value),
        Err(_) => false,
    }
}

fn is_read(alloc: Global) -> bool {
    match read_field(alloc, MONEY, b"+12.5") {
        Ok(value) => is_written(alloc, &value),
        Err(_) => false,
    }
}

#[test]
fn fields_are_read_and_written(rt: HostRuntime) {
    assert!(rt; is_read(rt.alloc()));
    assert!(rt; read_field(rt.alloc(), MONEY, b"1.234").is_err());
}

#[test]
fn numbers_are_rescaled(rt: HostRuntime) {
    assert_eq!(rt; rescale(-25, 1, 0), Some(-3));
    assert!(rt; is_type(MONEY) && !in_range(Ty::Int, 2_147_483_648));
}
