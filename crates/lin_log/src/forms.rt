//! Lines of steps.

ghost use Rattle.std.specs.Prelude.{ℕ, ◌≡◌, ◌==◌, IfOk};
ghost use Rattle.lin_core.specs.declared.step.Step.{Step};
ghost use Rattle.lin_log.specs.declared.reason.LineFault.{LineFault};
ghost use Rattle.lin_log.specs.declared.reason.Reason.{Reason};
ghost use Rattle.lin_log.specs.Read.{Gives};
ghost use Rattle.lin_log.specs.Said.{alone, fields, hurt_form, is_port, line_says, node_form};
ghost use Rattle.lin_log.specs.Said.{node_write, only, port, port_number, port_step, published_write};
ghost use Rattle.lin_log.specs.Said.{send_form, step_after, step_form, switch_form};
ghost use Rattle.lin_log.specs.Said.{timeout_form, write_form, write_of};

use crate::fields::{first_field, is_over, is_word, number_field};
use crate::naming::Naming;
use crate::reason::{LineFault, Reason};
use crate::values::{
    bytes_fields, direction_field, node_field, signal_field, table_field, value_field,
};
use lin_core::{PortId, Step};
use lin_text::Text;
use std::alloc::{AllocError, Global};

/// Whether a line's first field is a port: `bus`, or `h` or `n` with a digit or `:` after it.
pub fn is_port(field: &[u8]) -> bool
    ensures { result ≡ is_port field.now }
{
    matches!(field, b"bus" | [b'h' | b'n', b'0'..=b'9' | b':', ..])
}

/// The node of a port, by its number, or after `:` by its name.
#[inline(always)]
fn port_number<N: Naming>(alloc: Global, names: &N, field: &[u8]) -> Result<u8, LineFault>
    ensures { Gives (λ n. n) result (port_number (N.language names.now) field.now) }
{
    match field {
        [b':', name @ ..] => match names.node_called(name) {
            Some(node) => Ok(node),
            None => Err(LineFault::Bad(Reason::NoNode(Text::copied(alloc, name)?))),
        },
        _ => Ok(number_field(alloc, field, 255)? as u8),
    }
}

/// A port.
#[tactic(auto, unfolding(crate::specs::Said::port))]
fn port<N: Naming>(alloc: Global, names: &N, field: &[u8]) -> Result<PortId, LineFault>
    ensures { Gives (λ p. p) result (port (N.language names.now) field.now) }
{
    if is_word(field, b"bus") {
        return Ok(PortId::Bus);
    }
    match field {
        [b'h', number @ ..] => Ok(PortId::Host(port_number(alloc, names, number)?)),
        [_, number @ ..] => Ok(PortId::Node(port_number(alloc, names, number)?)),
        [] => Ok(PortId::Node(port_number(alloc, names, field)?)),
    }
}

#[tactic(auto, unfolding(crate::specs::Said::send_form))]
fn send<N: Naming>(alloc: Global, names: &N, line: &[u8]) -> Result<Step, LineFault>
    ensures { Gives (λ s. s) result
        (send_form (N.language names.now) (fields (N.language names.now).free line.now)) }
{
    let Some((from, rest)) = first_field(names, line) else {
        return Err(LineFault::Bad(Reason::SendForm));
    };
    let Some((to, rest)) = first_field(names, rest) else {
        return Err(LineFault::Bad(Reason::SendForm));
    };
    if is_over(names, rest) {
        return Err(LineFault::Bad(Reason::SendForm));
    }
    let from = node_field(alloc, names, from)?;
    let to = node_field(alloc, names, to)?;
    Ok(Step::Send {
        from,
        to,
        message: bytes_fields(alloc, names, rest)?,
    })
}

/// The write of a value, by its field.
fn written<N: Naming>(
    alloc: Global,
    names: &N,
    by: u8,
    signal: u16,
    value: &[u8],
) -> Result<Step, LineFault>
    ensures { Gives (λ s. s) result (write_of (N.language names.now) by signal value.now) }
{
    Ok(Step::Write {
        by,
        signal,
        value: value_field(alloc, names, value)?,
    })
}

/// The write of a value by a node, by their fields.
fn node_write<N: Naming>(
    alloc: Global,
    names: &N,
    by: &[u8],
    signal: &[u8],
    value: &[u8],
) -> Result<Step, LineFault>
    ensures { Gives (λ s. s) result
        (node_write (N.language names.now) by.now signal.now value.now) }
{
    let by = node_field(alloc, names, by)?;
    let signal = signal_field(alloc, names, signal)?;
    written(alloc, names, by, signal, value)
}

/// The write of a value by the signal's publisher, by their fields, in a free line.
fn published<N: Naming>(
    alloc: Global,
    names: &N,
    signal: &[u8],
    value: &[u8],
) -> Result<Step, LineFault>
    ensures { Gives (λ s. s) result
        (published_write (N.language names.now) signal.now value.now) }
{
    if !names.is_free() {
        return Err(LineFault::Bad(Reason::WriteForm));
    }
    let signal = signal_field(alloc, names, signal)?;
    written(alloc, names, names.publisher_of(signal), signal, value)
}

#[tactic(auto, unfolding(crate::specs::Said::write_form))]
fn write<N: Naming>(alloc: Global, names: &N, line: &[u8]) -> Result<Step, LineFault>
    ensures { Gives (λ s. s) result
        (write_form (N.language names.now) (fields (N.language names.now).free line.now)) }
{
    let Some((first, rest)) = first_field(names, line) else {
        return Err(LineFault::Bad(Reason::WriteForm));
    };
    let Some((second, rest)) = first_field(names, rest) else {
        return Err(LineFault::Bad(Reason::WriteForm));
    };
    let Some((third, rest)) = first_field(names, rest) else {
        return published(alloc, names, first, second);
    };
    if is_over(names, rest) {
        node_write(alloc, names, first, second, third)
    } else {
        Err(LineFault::Bad(Reason::WriteForm))
    }
}

#[tactic(auto, unfolding(crate::specs::Said::hurt_form))]
fn hurt<N: Naming>(alloc: Global, names: &N, line: &[u8]) -> Result<Step, LineFault>
    ensures { Gives (λ s. s) result
        (hurt_form (N.language names.now) (fields (N.language names.now).free line.now)) }
{
    Ok(Step::Hurt {
        bytes: bytes_fields(alloc, names, line)?,
    })
}

/// After this word stand so many fields, and here there are more or less.
fn takes(alloc: Global, word: &[u8], fields: u8) -> Result<LineFault, AllocError>
    ensures { IfOk result (λ fault. fault ≡ LineFault.Bad (Reason.Takes word.now fields)) }
{
    Ok(LineFault::Bad(Reason::Takes {
        word: Text::copied(alloc, word)?,
        fields,
    }))
}

#[tactic(auto, unfolding(crate::specs::Said::timeout_form))]
fn timeout<N: Naming>(alloc: Global, names: &N, word: &[u8], line: &[u8]) -> Result<Step, LineFault>
    ensures { Gives (λ s. s) result (timeout_form (N.language names.now) word.now
        (fields (N.language names.now).free line.now)) }
{
    let Some((node, rest)) = first_field(names, line) else {
        return Err(takes(alloc, word, 2)?);
    };
    let Some((dir, rest)) = first_field(names, rest) else {
        return Err(takes(alloc, word, 2)?);
    };
    if !is_over(names, rest) {
        return Err(takes(alloc, word, 2)?);
    }
    let node = node_field(alloc, names, node)?;
    Ok(Step::Timeout {
        node,
        dir: direction_field(dir)?,
    })
}

/// The only field of a line.
#[inline(always)]
fn only_field<'a, N: Naming>(
    alloc: Global,
    names: &N,
    word: &[u8],
    line: &'a [u8],
) -> Result<&'a [u8], LineFault>
    ensures { Gives (λ f. f.now) result
        (only word.now (fields (N.language names.now).free line.now)) }
{
    match first_field(names, line) {
        Some((field, rest)) if is_over(names, rest) => Ok(field),
        _ => Err(takes(alloc, word, 1)?),
    }
}

#[tactic(auto, unfolding(crate::specs::Said::switch_form))]
#[inline(always)]
fn switch<N: Naming>(alloc: Global, names: &N, word: &[u8], line: &[u8]) -> Result<Step, LineFault>
    ensures { Gives (λ s. s) result (switch_form (N.language names.now) word.now
        (fields (N.language names.now).free line.now)) }
{
    let field = only_field(alloc, names, word, line)?;
    Ok(Step::Switch {
        table: table_field(alloc, names, field)?,
    })
}

/// The node of a step that takes one.
#[tactic(auto, unfolding(crate::specs::Said::node_form))]
#[inline(always)]
fn only_node<N: Naming>(alloc: Global, names: &N, word: &[u8], line: &[u8]) -> Result<u8, LineFault>
    ensures { (step : ℕ → Step) → Gives step result (node_form (N.language names.now) step word.now
        (fields (N.language names.now).free line.now)) }
{
    let field = only_field(alloc, names, word, line)?;
    node_field(alloc, names, field)
}

/// The step, where no field stands after its word.
#[tactic(auto, unfolding(crate::specs::Said::alone))]
#[inline(always)]
fn alone<N: Naming>(
    alloc: Global,
    names: &N,
    step: Step,
    word: &[u8],
    line: &[u8],
) -> Result<Step, LineFault>
    ensures { Gives (λ s. s) result
        (alone step word.now (fields (N.language names.now).free line.now)) }
{
    if is_over(names, line) {
        Ok(step)
    } else {
        Err(takes(alloc, word, 0)?)
    }
}

/// The step that a word names, with the rest of its line.
#[tactic(auto, unfolding(crate::specs::Said::step_form))]
pub fn step<N: Naming>(
    alloc: Global,
    names: &N,
    word: &[u8],
    rest: &[u8],
) -> Result<Step, LineFault>
    ensures { Gives (λ s. s) result (step_form (N.language names.now) word.now
        (fields (N.language names.now).free rest.now)) }
{
    if is_word(word, b"send") {
        send(alloc, names, rest)
    } else if is_word(word, b"write") {
        write(alloc, names, rest)
    } else if is_word(word, b"open") {
        alone(alloc, names, Step::Open, word, rest)
    } else if is_word(word, b"answer") {
        Ok(Step::Answer {
            node: only_node(alloc, names, word, rest)?,
        })
    } else if is_word(word, b"leave") {
        Ok(Step::Leave {
            node: only_node(alloc, names, word, rest)?,
        })
    } else if is_word(word, b"hurt") {
        hurt(alloc, names, rest)
    } else if is_word(word, b"finish") {
        alone(alloc, names, Step::Finish, word, rest)
    } else if is_word(word, b"timeout") {
        timeout(alloc, names, word, rest)
    } else if is_word(word, b"switch") {
        switch(alloc, names, word, rest)
    } else if is_word(word, b"sleep") {
        alone(alloc, names, Step::AskSleep, word, rest)
    } else if is_word(word, b"wake") {
        alone(alloc, names, Step::Wake, word, rest)
    } else if is_word(word, b"close") {
        Ok(Step::Close {
            host: only_node(alloc, names, word, rest)?,
        })
    } else {
        Err(LineFault::Bad(Reason::UnknownStep(Text::copied(alloc, word)?)))
    }
}

/// The step of a port.
fn step_after<N: Naming>(alloc: Global, names: &N, line: &[u8]) -> Result<Step, LineFault>
    ensures { Gives (λ s. s) result
        (step_after (N.language names.now) (fields (N.language names.now).free line.now)) }
{
    match first_field(names, line) {
        None => Err(LineFault::Bad(Reason::NoStep)),
        Some((word, rest)) => step(alloc, names, word, rest),
    }
}

/// A step of the port that a word names, with the rest of its line.
#[tactic(auto, unfolding(crate::specs::Said::port_step))]
pub fn port_step<N: Naming>(
    alloc: Global,
    names: &N,
    word: &[u8],
    rest: &[u8],
) -> Result<(PortId, Step), LineFault>
    ensures { Gives (λ s. s) result (port_step (N.language names.now) word.now
        (fields (N.language names.now).free rest.now)) }
{
    let by = port(alloc, names, word)?;
    Ok((by, step_after(alloc, names, rest)?))
}

/// The step of a line without its end; none where the line says nothing.
#[tactic(auto, unfolding(crate::specs::Said::line_says))]
#[inline(always)]
pub fn line_step<N: Naming>(
    alloc: Global,
    names: &N,
    line: &[u8],
) -> Result<Option<(PortId, Step)>, LineFault>
    ensures { Gives (λ o. o) result (line_says (N.language names.now) line.now) }
{
    if let [b'#' | b'>', ..] = line {
        return Ok(None);
    }
    match first_field(names, line) {
        None => Ok(None),
        Some((word, rest)) => {
            if is_port(word) {
                Ok(Some(port_step(alloc, names, word, rest)?))
            } else {
                Err(LineFault::Bad(Reason::NoPort))
            }
        }
    }
}
