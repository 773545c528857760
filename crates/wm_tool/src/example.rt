// The built-in example: the worked cases on a fresh table.

use system::System;

pub fn play(sys: &System) {
    let mut table = [0u8; table::ROW_LENGTH_1];
    let mut room = [0u8; 4100];
    let mut answer = [0u8; answers::ANSWER_LEAST];
    let mut notice = [0u8; answers::NOTICE_LENGTH];
    let mut out = [0u8; 4096];
    for k in 0..41 {
        let n = tool_cases::step(k, &mut table, &mut room, &mut answer, &mut notice, &mut out);
        tool_files::print(sys, &out, n);
    }
}
