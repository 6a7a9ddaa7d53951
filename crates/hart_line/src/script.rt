//! Scripts: texts in which each line stands for an event.
ghost use Rattle.std.specs.Prelude.{IfOk, IfErr};
ghost use Rattle.hart_line.specs.script.Rows.{IsScript, IsScriptFault};

use crate::script::rows::read_line;
use crate::{Filling, LineEvent, LineFault};
use hart_text::{Digits, first_line};
use std::alloc::Global;

pub mod items;
pub mod rows;
pub mod words;

/// Returns the events that the lines of a text stand for, in order. Empty lines and comments, whose first word begins with `#`, stand for
/// no event.
///
/// # Errors
///
/// [`LineFault::BadLine`] with the number of the first bad line, counted from 1. A line is bad if it stands for no event and is neither
/// empty nor a comment.
///
/// [`LineFault::Memory`] if memory was refused for the event of a line, or for the characters in a word of items. A word of items follows
/// `noise`, or says what is heard in a leg. It needs one character for every two bytes of the word.
pub fn read_script(alloc: Global, text: &[u8]) -> Result<Vec<LineEvent>, LineFault>
    ensures events { IfOk result (λ events. IsScript text.now events.items) }
    ensures fault { IfErr result (IsScriptFault text.now) }
{
    let mut events = Filling::with_room(alloc, 0).unwrap();
    let digits = Digits::new();
    let mut number = 0;
    let mut rest = text;
    loop {
        number += 1;
        let (line, more) = first_line(rest);
        read_line(alloc, &digits, number, line, &mut events)?;
        let Some(next) = more else {
            return Ok(events.finish());
        };
        rest = next;
    }
}
