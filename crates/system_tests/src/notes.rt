//! What is noted of a scene or a line, as one text that is compared at the end.
use containers::Bytes;
use task_numbers::TaskNo;

/// Notes something. Where memory is refused, the text is not the one that is told, so nothing else has to say it.
pub fn put(out: &mut Bytes, text: &[u8]) {
    let _put = out.append(text).is_ok();
}

/// Notes a task by one byte, which for a small number is its digit.
pub fn put_task(out: &mut Bytes, task: TaskNo) {
    put(out, &[b'0'.wrapping_add((task.0 % 256) as u8)]);
}
