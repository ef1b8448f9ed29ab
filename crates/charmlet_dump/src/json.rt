//! The JSON form of each fact.

use crate::lines::{Fact, KindName};
use charmlet_model::{Elem, Message, MsgId, Origin, Record, Refusal, State, Words};
use std::fmt;

/// A fact in the JSON form.
#[derive(Clone, Copy)]
pub struct JsonLine<'a>(pub Fact<'a>);

/// An element.
#[derive(Clone, Copy)]
struct JsonElem(Elem);

/// The id of a message.
#[derive(Clone, Copy)]
struct JsonId(MsgId);

/// Numbers, each after a comma.
#[derive(Clone, Copy)]
struct MoreNumbers<'a>(&'a [u64]);

/// A list of numbers.
#[derive(Clone, Copy)]
struct JsonNumbers<'a>(&'a Words);

/// The fields of an object.
#[derive(Clone, Copy)]
struct JsonState<'a>(&'a State);

/// The place, the counts, the kind and the state of an element with this home.
#[derive(Clone, Copy)]
struct JsonRecord<'a> {
    home: u16,
    kept: &'a Record,
}

/// A pending message.
#[derive(Clone, Copy)]
struct JsonMessage<'a>(&'a Message);

/// The answer to a client about a request: the reply, if there is one.
#[derive(Clone, Copy)]
struct JsonReply<'a>(Option<&'a Words>);

/// Why nothing is dumped.
#[derive(Clone, Copy)]
struct JsonRefusal(Refusal);

/// Writes an object with the array and the index.
impl fmt::Display for JsonElem {
    ghost use Rattle.std.specs.Prelude.{Some};
    ghost use Rattle.charmlet_dump.specs.Json.{json_elem};

    ghost output = { λ elem. Some (json_elem elem.0) };

    fn fmt<W: fmt::Write>(&self, f: &mut fmt::Formatter<W>) -> fmt::Result {
        let array = self.0.array;
        let index = self.0.index;
        write!(f, "{{\"array\":{array},\"index\":{index}}}")
    }
}

/// Writes an object with the client or the element, and the number.
impl fmt::Display for JsonId {
    ghost use Rattle.std.specs.Prelude.{Some};
    ghost use Rattle.charmlet_dump.specs.Json.{json_id};

    ghost output = { λ id. Some (json_id id.0) };

    fn fmt<W: fmt::Write>(&self, f: &mut fmt::Formatter<W>) -> fmt::Result {
        let number = self.0.number;
        match self.0.origin {
            Origin::Client(client) => write!(f, "{{\"client\":{client},\"number\":{number}}}"),
            Origin::Element(elem) => {
                let elem = JsonElem(elem);
                write!(f, "{{\"element\":{elem},\"number\":{number}}}")
            }
        }
    }
}

/// Writes each number after a comma.
impl<'a> fmt::Display for MoreNumbers<'a> {
    ghost use Rattle.std.specs.Prelude.{Some};
    ghost use Rattle.charmlet_dump.specs.Json.{more_numbers};

    ghost output = { λ numbers. Some (more_numbers numbers.0.now) };

    fn fmt<W: fmt::Write>(&self, f: &mut fmt::Formatter<W>) -> fmt::Result {
        for number in self.0 {
            write!(f, ",{number}")?;
        }
        Ok(())
    }
}

/// Writes an array.
impl<'a> fmt::Display for JsonNumbers<'a> {
    ghost use Rattle.std.specs.Prelude.{Some};
    ghost use Rattle.charmlet_dump.specs.Json.{json_numbers};

    ghost output = { λ numbers. Some (json_numbers numbers.0.now) };

    fn fmt<W: fmt::Write>(&self, f: &mut fmt::Formatter<W>) -> fmt::Result {
        match self.0.as_slice() {
            [] => write!(f, "[]"),
            [first, rest @ ..] => {
                let rest = MoreNumbers(rest);
                write!(f, "[{first}{rest}]")
            }
        }
    }
}

/// Writes the kind, and an object with the fields.
impl<'a> fmt::Display for JsonState<'a> {
    ghost use Rattle.std.specs.Prelude.{Some};
    ghost use Rattle.charmlet_dump.specs.Json.{json_state};

    ghost output = { λ state. Some (json_state state.0.now) };

    fn fmt<W: fmt::Write>(&self, f: &mut fmt::Formatter<W>) -> fmt::Result {
        match *self.0 {
            State::FirstCounter { count } => {
                write!(f, "\"kind\":\"counter\",\"state\":{{\"count\":{count}}}")
            }
            State::Counter { count, peak } => write!(
                f,
                "\"kind\":\"counter\",\"state\":{{\"count\":{count},\"peak\":{peak}}}"
            ),
            State::Ring { next, seen } => write!(
                f,
                "\"kind\":\"ring\",\"state\":{{\"next\":{next},\"seen\":{seen}}}"
            ),
            State::Account { balance } => {
                write!(
                    f,
                    "\"kind\":\"account\",\"state\":{{\"balance\":{balance}}}"
                )
            }
            State::Sum {
                want,
                got,
                total,
                up,
            } => write!(
                f,
                "\"kind\":\"sum\",\"state\":{{\"want\":{want},\"got\":{got},\
                 \"total\":{total},\"up\":{up}}}"
            ),
            State::Tree { depth } => {
                write!(f, "\"kind\":\"tree\",\"state\":{{\"depth\":{depth}}}")
            }
            State::Tape { ref items } => {
                let items = JsonNumbers(items);
                write!(f, "\"kind\":\"tape\",\"state\":{{\"items\":{items}}}")
            }
        }
    }
}

/// Writes the keys from the place on. An element that isn't there has no place, no kind and no
/// state.
impl<'a> fmt::Display for JsonRecord<'a> {
    ghost use Rattle.std.specs.Prelude.{Some};
    ghost use Rattle.charmlet_dump.specs.Json.{json_record};

    ghost output = { λ held. Some (json_record held.home held.kept.now.state
        held.kept.now.sent held.kept.now.received) };

    fn fmt<W: fmt::Write>(&self, f: &mut fmt::Formatter<W>) -> fmt::Result {
        let home = self.home;
        let sent = self.kept.sent;
        let received = self.kept.received;
        match &self.kept.state {
            Some(state) => {
                let state = JsonState(state);
                write!(
                    f,
                    "\"pe\":{home},\"sent\":{sent},\"received\":{received},{state}"
                )
            }
            None => write!(
                f,
                "\"pe\":null,\"sent\":{sent},\"received\":{received},\"kind\":null,\"state\":null"
            ),
        }
    }
}

/// Writes the keys of the message.
impl<'a> fmt::Display for JsonMessage<'a> {
    ghost use Rattle.std.specs.Prelude.{Some};
    ghost use Rattle.charmlet_dump.specs.Json.{json_message};

    ghost output = { λ message. Some (json_message message.0.now) };

    fn fmt<W: fmt::Write>(&self, f: &mut fmt::Formatter<W>) -> fmt::Result {
        let id = JsonId(self.0.id);
        let to = JsonElem(self.0.to);
        let entry = self.0.entry;
        let words = JsonNumbers(&self.0.words);
        write!(
            f,
            "\"pending\":{id},\"to\":{to},\"entry\":{entry},\"words\":{words}"
        )
    }
}

/// Writes the keys of the reply.
impl<'a> fmt::Display for JsonReply<'a> {
    ghost use Rattle.std.specs.Prelude.{Some, option_copied};
    ghost use Rattle.charmlet_dump.specs.Json.{json_item};

    ghost output = { λ reply. Some (json_item (option_copied reply.0)) };

    fn fmt<W: fmt::Write>(&self, f: &mut fmt::Formatter<W>) -> fmt::Result {
        match self.0 {
            Some(words) => {
                let words = JsonNumbers(words);
                write!(f, "\"told\":\"replied\",\"reply\":{words}")
            }
            None => write!(f, "\"told\":\"accepted\",\"reply\":null"),
        }
    }
}

/// Writes the keys: the refusal's number and its name, and, if a half is damaged, that half and the
/// offset.
impl fmt::Display for JsonRefusal {
    ghost use Rattle.std.specs.Prelude.{Some};
    ghost use Rattle.charmlet_dump.specs.Json.{json_refusal};

    ghost output = { λ refusal. Some (json_refusal refusal.0) };

    fn fmt<W: fmt::Write>(&self, f: &mut fmt::Formatter<W>) -> fmt::Result {
        let refusal = self.0;
        let number = refusal.number();
        match refusal {
            Refusal::Damaged { half, offset } => write!(
                f,
                "\"refused\":{number},\"name\":\"Damaged\",\"half\":{half},\"offset\":{offset}"
            ),
            _ => write!(f, "\"refused\":{number},\"name\":\"{refusal}\""),
        }
    }
}

/// Writes the JSON line of a fact, without a line feed.
impl<'a> fmt::Display for JsonLine<'a> {
    ghost use Rattle.std.specs.Prelude.{Some};
    ghost use Rattle.charmlet_dump.specs.Facts.{fact_in};
    ghost use Rattle.charmlet_dump.specs.Json.{json_text};

    ghost output = { λ line. Some (json_text (fact_in line.0)) };

    fn fmt<W: fmt::Write>(&self, f: &mut fmt::Formatter<W>) -> fmt::Result {
        match self.0 {
            Fact::Store { generation, events } => write!(
                f,
                "{{\"store\":{{\"generation\":{generation},\"events\":{events}}}}}"
            ),
            Fact::Array {
                array,
                kind_version,
            } => {
                let kind = kind_version.kind();
                let version = kind_version.version();
                let name = KindName(kind);
                write!(
                    f,
                    "{{\"array\":{array},\"kind\":\"{name}\",\"kind_number\":{kind},\
                     \"version\":{version}}}"
                )
            }
            Fact::Element { elem, home, kept } => {
                let elem = JsonElem(elem);
                let held = JsonRecord { home, kept };
                write!(f, "{{\"element\":{elem},{held}}}")
            }
            Fact::Pending { message } => {
                let message = JsonMessage(message);
                write!(f, "{{{message}}}")
            }
            Fact::Constructions { kind, count } => {
                let name = KindName(kind);
                write!(
                    f,
                    "{{\"constructions\":{count},\"kind\":\"{name}\",\"kind_number\":{kind}}}"
                )
            }
            Fact::Client { client, last } => {
                write!(f, "{{\"client\":{client},\"last\":{last}}}")
            }
            Fact::Request {
                client,
                number,
                reply,
            } => {
                let reply = JsonReply(reply);
                write!(
                    f,
                    "{{\"request\":{{\"client\":{client},\"number\":{number}}},{reply}}}"
                )
            }
            Fact::Refused { refusal } => {
                let refusal = JsonRefusal(refusal);
                write!(f, "{{{refusal}}}")
            }
        }
    }
}
