//! What is shown at the four channels.
use containers::Bytes;
use session_text::Display;
use std::alloc::Global;

// Does a step. Where memory is refused, the lines are not those that are told.
fn go(display: &mut Display, step: &[u8]) {
    let [digit, what, byte, ..] = step else {
        return
    };
    let channel = digit.wrapping_sub(b'0').clamp(1, 4);
    let done = match *what {
        b'!' => display.say(channel, &[*byte]),
        b'l' => display.close_all(),
        _ => display.write(channel, &[*byte], *what == b'+'),
    };
    let _done = done.is_ok();
}

/// Writes what steps show, in the form with channels and then in the plain one. A step is a channel, what is done there and a byte:
/// `1-a` writes the byte, `1+a` writes it and ends the line, and `1!a` says it; `all` closes the pieces of all channels.
pub fn lines(alloc: Global, out: &mut Bytes, steps: &[u8]) {
    let mut display = Display::new(alloc);
    for step in steps.chunks(4) {
        go(&mut display, step);
    }
    let _shown = display.render(false, out).is_ok();
    let _shown = display.render(true, out).is_ok();
}
