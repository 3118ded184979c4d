// Type and op select a message's size and class; the rules of its head bits and bytes.
ghost use Rattle.std.specs.Prelude.{◌/◌, ◌%◌, ◌≡◌, ◌&&◌, get_or, ltb};
ghost use Rattle.lists.specs.Parts.{zeros, part};
ghost use Rattle.container.specs.Grants.{form_ok};
ghost use Rattle.message.specs.Heads.{op_sizes, plain_sizes, size_by, msg_size, class_of, misc_by, flag_bound, push_by, activation_by, grant_by, well_headed, is_message};

use crate::codes::{
    ACTIVATION, CONNECT, CRDT_GRANT, DATA_L, DATA_S, LINK_STATUS, MISC_U, PROPERTY, REQ_L, REQ_S,
    RESP, RESP2, SNOOP, WR_REQ_DATA_L, WR_REQ_DATA_S,
};
use container::is_form;
use slices::{byte_at, is_zero, is_zero_from, item_or};

// Which credits a message pays, by its type.
#[derive(Clone, Copy)]
pub enum Class {
    Unknown,
    Request,
    Response,
    Snoop,
    Data,
    RequestData,
    Misc,
}

// The bytes of a MiscU, 0 where the op is unknown.
fn measure_misc(op: u8) -> usize
    ensures { result ≡ get_or op_sizes op 0 }
{
    match op {
        LINK_STATUS => 10,
        ACTIVATION => 10,
        CRDT_GRANT => 16,
        CONNECT => 10,
        PROPERTY => 20,
        5..=255 => 0,
    }
}

// The bytes of a message other than MiscU, 0 where the type is unknown.
fn measure_type(msgtype: u8) -> usize
    ensures { result ≡ get_or plain_sizes msgtype 0 }
{
    match msgtype {
        REQ_S => 20,
        REQ_L => 40,
        RESP => 10,
        RESP2 => 20,
        SNOOP => 20,
        DATA_S => 80,
        DATA_L => 100,
        WR_REQ_DATA_S => 100,
        WR_REQ_DATA_L => 120,
        0 | 10..=255 => 0,
    }
}

// The bytes of a message of a type and op, 0 where either is unknown.
pub fn measure_code(msgtype: u8, op: u8) -> usize
    ensures { result ≡ size_by msgtype op }
{
    match msgtype {
        REQ_S..=WR_REQ_DATA_L => measure_type(msgtype),
        MISC_U => measure_misc(op),
        0 | 11..=255 => 0,
    }
}

// The bytes that a message has by its head, 0 where its type or op is unknown.
pub fn measure_message(message: &[u8]) -> usize
    ensures { result ≡ msg_size message.now }
{
    let msgtype = byte_at(message, 0) % 16;
    let op = byte_at(message, 1);
    measure_code(msgtype, op)
}

// The class of a type.
pub fn classify_message(msgtype: u8) -> Class
    ensures { result ≡ class_of msgtype }
{
    match msgtype {
        REQ_S | REQ_L => Class::Request,
        RESP | RESP2 => Class::Response,
        SNOOP => Class::Snoop,
        DATA_S | DATA_L => Class::Data,
        WR_REQ_DATA_S | WR_REQ_DATA_L => Class::RequestData,
        MISC_U => Class::Misc,
        0 | 11..=255 => Class::Unknown,
    }
}

// Whether type and op are those of a MiscU with a given op.
pub fn is_misc(msgtype: u8, op: u8, wanted: u8) -> bool
    ensures { result ≡ misc_by msgtype op wanted }
{
    msgtype == MISC_U && op == wanted
}

// One above the largest value of byte 0 bits 4 to 7, by type.
const FLAG_BOUNDS: [u8; 11] = [0, 16, 16, 1, 1, 1, 2, 2, 16, 16, 1];

// One above the largest value of byte 0 bits 4 to 7.
fn bound_flags(msgtype: u8) -> u8
    ensures { result ≡ flag_bound msgtype }
{
    item_or(&FLAG_BOUNDS, msgtype as usize, 0)
}

// Whether byte 1 keeps the rule of types 8 and 9.
fn keeps_push(msgtype: u8, byte1: u8) -> bool
    ensures { result ≡ push_by msgtype byte1 }
{
    match msgtype {
        WR_REQ_DATA_S | WR_REQ_DATA_L => byte1 < 2,
        0..=255 => true,
    }
}

// Whether byte 2 keeps the rule of an Activation.
fn keeps_activation(msgtype: u8, op: u8, byte2: u8) -> bool
    ensures { result ≡ activation_by msgtype op byte2 }
{
    !is_misc(msgtype, op, ACTIVATION) || 1 <= byte2 && byte2 <= 5
}

// Whether bytes 7 to 15 are zero, as far as there are such.
fn has_zero_tail(message: &[u8]) -> bool
    ensures { result ≡ zeros (part 7 9 message.now) }
{
    if message.len() < 16 {
        return is_zero_from(message, 7);
    }
    is_zero(&message[7..16])
}

// Whether bytes 2 to 15 are a grant form and zeros.
fn holds_grant(message: &[u8]) -> bool
    ensures { result ≡ (form_ok (get_or message.now 2 0) && zeros (part 7 9 message.now)) }
{
    is_form(byte_at(message, 2)) && has_zero_tail(message)
}

// Whether the bits of byte 0, and bytes 1 and 2, keep the rules that hold of them alone.
pub fn keeps_bytes(byte0: u8, byte1: u8, byte2: u8) -> bool
    ensures { result ≡ (ltb (byte0 / 16) (flag_bound (byte0 % 16)) && (push_by (byte0 % 16) byte1 && activation_by (byte0 % 16) byte1 byte2)) }
{
    let msgtype = byte0 % 16;
    byte0 / 16 < bound_flags(msgtype)
        && keeps_push(msgtype, byte1)
        && keeps_activation(msgtype, byte1, byte2)
}

// Whether bytes 2 to 15 keep the rule of a CrdtGrant.
pub fn keeps_grant(msgtype: u8, op: u8, message: &[u8]) -> bool
    ensures { result ≡ grant_by msgtype op message.now }
{
    !is_misc(msgtype, op, CRDT_GRANT) || holds_grant(message)
}

// Whether the head bits and bytes of a message are right.
pub fn is_well_headed(message: &[u8]) -> bool
    ensures { result ≡ well_headed message.now }
{
    let byte0 = byte_at(message, 0);
    let byte1 = byte_at(message, 1);
    keeps_bytes(byte0, byte1, byte_at(message, 2)) && keeps_grant(byte0 % 16, byte1, message)
}

// Whether the bytes are a whole message with a right head.
pub fn is_message(message: &[u8]) -> bool
    ensures { result ≡ is_message message.now }
{
    let size = measure_message(message);
    size != 0 && size == message.len() && is_well_headed(message)
}
