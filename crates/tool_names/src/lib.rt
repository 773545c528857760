// The names that numbers have in the public documents and in document 01, said at `at`.
#![tactic(auto)]

use tool_words::say;

// A Result-Code.
pub fn result(out: &mut [u8; 4096], at: usize, code: u32) -> usize {
    let name: &[u8] = match code {
        2001 => b"DIAMETER_SUCCESS",
        3001 => b"DIAMETER_COMMAND_UNSUPPORTED",
        3002 => b"DIAMETER_UNABLE_TO_DELIVER",
        3007 => b"DIAMETER_APPLICATION_UNSUPPORTED",
        3008 => b"DIAMETER_INVALID_HDR_BITS",
        3009 => b"DIAMETER_INVALID_AVP_BITS",
        5001 => b"DIAMETER_AVP_UNSUPPORTED",
        5002 => b"DIAMETER_UNKNOWN_SESSION_ID",
        5003 => b"DIAMETER_AUTHORIZATION_REJECTED",
        5004 => b"DIAMETER_INVALID_AVP_VALUE",
        5005 => b"DIAMETER_MISSING_AVP",
        5009 => b"DIAMETER_AVP_OCCURS_TOO_MANY_TIMES",
        5012 => b"DIAMETER_UNABLE_TO_COMPLY",
        5013 => b"DIAMETER_INVALID_BIT_IN_HEADER",
        5014 => b"DIAMETER_INVALID_AVP_LENGTH",
        _ => b"a code without a name here",
    };
    say(out, at, name)
}

// The code of an Experimental-Result.
pub fn experimental(out: &mut [u8; 4096], at: usize, code: u32) -> usize {
    let name: &[u8] = match code {
        5001 => b"USER_UNKNOWN",
        5004 => b"ROAMING_NOT_ALLOWED",
        5042 => b"W-APN_UNUSED_BY_USER",
        5044 => b"USER_NO_W-APN_SUBSCRIPTION",
        _ => b"a code without a name here",
    };
    say(out, at, name)
}

// The number of a call that gets no answer.
pub fn no_answer(out: &mut [u8; 4096], at: usize, number: u32) -> usize {
    let name: &[u8] = match number {
        1 => b"the table is not 1 to 1,024 rows of its form",
        2 => b"own host or realm is not 1 to 128 bytes",
        3 => b"the answer room is under 5,120 bytes",
        4 => b"the notice room is shorter than a notice",
        5 => b"the message is under 20 or over 4,096 bytes",
        6 => b"the version is not 1",
        7 => b"the header length is no multiple of 4, or not that of the message",
        8 => b"the R bit is clear: no request",
        33 => b"the operator is over 15",
        _ => b"a number without a meaning here",
    };
    say(out, at, name)
}

// The number of a set-up operation that changed nothing.
pub fn set_up(out: &mut [u8; 4096], at: usize, number: u32) -> usize {
    let name: &[u8] = match number {
        1 => b"the table is not 1 to 1,024 rows of its form",
        9 => b"a name is 1 to 15 decimal digits",
        10 => b"the operator has that name already",
        11 => b"the table has no free row",
        12 => b"the operator has no such subscriber",
        13 => b"the subscriber's row is not sound",
        14 => b"a label is 1 to 100 bytes and a limit 1 to 8",
        15 => b"the subscriber has that label already",
        16 => b"the subscriber has four labels already",
        17 => b"the subscriber's limits would sum to over 8",
        26 => b"the shares are not sixteen, or come to more than the table's rows",
        27 => b"the operator's rows fill its share",
        33 => b"the operator is over 15",
        _ => b"a number without a meaning here",
    };
    say(out, at, name)
}

// The number of a disconnection that was not written.
pub fn not_written(out: &mut [u8; 4096], at: usize, number: u32) -> usize {
    let name: &[u8] = match number {
        2 => b"own host or realm is not 1 to 128 bytes",
        4 => b"the notice is under 384 bytes",
        22 => b"the tunnel's Session-Id, host or realm is not 1 to 128 bytes",
        23 => b"the room is under 1,024 bytes",
        _ => b"a number without a meaning here",
    };
    say(out, at, name)
}

// A command.
pub fn command(out: &mut [u8; 4096], at: usize, code: u32) -> usize {
    let name: &[u8] = match code {
        258 => b"Re-Auth",
        265 => b"AA",
        274 => b"Abort-Session",
        275 => b"Session-Termination",
        _ => b"command without a name here,",
    };
    say(out, at, name)
}
