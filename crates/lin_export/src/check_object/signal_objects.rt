//! The signals of a cluster in an object.

ghost use Rattle.std.specs.Prelude.{◌≡◌, ◌<◌, codes, length, map, option_map, slice_get};
ghost use Rattle.lin_parts.specs.Rules.{is_array};
ghost use Rattle.lin_text.specs.Written.{Grows};
ghost use Rattle.lin_export.specs.CheckObject.{list_member};
ghost use Rattle.lin_export.specs.ClusterObject.{encoding_value, signal_object, subscribers};
ghost use Rattle.lin_export.specs.Csv.{after_comma};
ghost use Rattle.lin_export.specs.Json.{member, quoted_text};
ghost use Rattle.lin_export.specs.Jsonl.{signal_value};
ghost use Rattle.lin_export.specs.Members.{member_shown};
ghost use Rattle.lin_export.specs.WhereTold.{given_coding};

use super::positions::put_place;
use crate::json::{
    Member, put_key, put_list, put_member, put_members, put_numbered_first, put_quoted,
    put_separator,
};
use crate::slot_object::put_value;
use lin_frame::Value;
use lin_parts::Cluster;
use lin_parts::description::{Description, Name, Signal};
use lin_text::TextWriter;
use lin_values::Coded;
use std::io::Write;

fn is_array(value: &Value) -> bool
    ensures { result ≡ is_array value.now }
{
    match value {
        Value::Scalar(_) => false,
        Value::Bytes(_) => true,
    }
}

/// A signal in the LDF.
fn declared(description: &Description, signal: u16) -> Option<&Signal>
    ensures { option_map (λ s. s.now) result
        ≡ slice_get description.now.signals signal }
{
    description.signals().get(usize::from(signal))
}

/// The name of a signal in the LDF.
fn name_declared(description: &Description, signal: u16) -> Option<&Name>
    ensures { option_map (λ n. n.now) result
        ≡ option_map (λ s. s.name) (slice_get description.now.signals signal) }
{
    match declared(description, signal) {
        Some(signal) => Some(&signal.name),
        None => None,
    }
}

/// The nodes that subscribe to a signal in the LDF.
fn subscribers(description: &Description, signal: u16) -> &[Name]
    ensures { result.now ≡ subscribers description.now signal }
{
    match declared(description, signal) {
        Some(signal) => signal.subscribers.as_slice(),
        None => &[],
    }
}

fn encoding_member<'a>(coded: Option<&'a Coded>, signal: u16) -> Member<'a>
    ensures { member_shown result
        ≡ member (codes "encoding") (encoding_value (given_coding coded.entry) signal) }
{
    match coded {
        Some(coded) => match coded.encoding_of(signal) {
            Some(encoding) => Member::Text("encoding", encoding.coding().name.text.as_slice()),
            None => Member::Null("encoding"),
        },
        None => Member::Null("encoding"),
    }
}

/// The initial value of a signal.
fn put_initial<W: Write>(out: &mut TextWriter<'_, W>, value: &Value)
    ensures { Grows W.contents out.old out.new
        (after_comma (member (codes "initial") (signal_value value.now))) }
{
    put_key(out, "initial");
    put_value(out, value);
}

fn put_subscribers<W: Write>(out: &mut TextWriter<'_, W>, names: &[Name])
    ensures { Grows W.contents out.old out.new
        (after_comma (list_member (codes "subscribers") (map (λ n. quoted_text n.text) names.now))) }
{
    put_list(out, "subscribers");
    for place in 0..names.len() {
        put_separator(out, place);
        put_quoted(out, names[place].text.as_slice());
    }
    out.put_byte(b']');
}

pub(super) fn put_signal<'a, W: Write>(
    out: &mut TextWriter<'_, W>,
    cluster: &'a Cluster,
    description: &'a Description,
    coded: Option<&'a Coded>,
    signal: u16,
)
    requires { signal < length cluster.now.signals }
    ensures { Grows W.contents out.old out.new
        (signal_object cluster.now description.now (given_coding coded.entry) signal) }
{
    cluster.sound();
    let initial = cluster.initial(signal);
    put_numbered_first(out, u64::from(signal));
    put_members(
        out,
        &[
            Member::Text("name", cluster.signal_name(signal)),
            Member::Number("bits", u64::from(cluster.signal_size(signal))),
            Member::Truth("array", is_array(initial)),
        ],
    );
    put_initial(out, initial);
    put_member(
        out,
        Member::Text("publisher", cluster.node_name(cluster.publisher(signal))),
    );
    put_subscribers(out, subscribers(description, signal));
    put_member(out, encoding_member(coded, signal));
    put_place(out, name_declared(description, signal));
    out.put_byte(b'}');
}
