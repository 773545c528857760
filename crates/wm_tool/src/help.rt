// What the tool can do.

use system::System;

fn line(sys: &System, text: &[u8]) {
    tool_files::put(sys, text);
}

// The commands that set a table up and show it.
fn tables(sys: &System) {
    line(
        sys,
        b"play                              the worked cases on a fresh table: watch a cut happen\n",
    );
    line(
        sys,
        b"play new TABLE ROWS [form=2]      a new table of 1 to 1024 free rows, of form 1 or 2\n",
    );
    line(sys, b"play enter TABLE NAME [operator=N] [shares=A,B,..]\n");
    line(
        sys,
        b"                                  a subscriber, 1 to 15 digits, of that operator, 0 to 15. The shares are how\n",
    );
    line(
        sys,
        b"                                  many rows each of the sixteen may have; without them this one may have all\n",
    );
    line(
        sys,
        b"play add TABLE NAME LABEL LIMIT [barred] [roam] [operator=N]\n",
    );
    line(
        sys,
        b"                                  an access point name for a subscriber, 1 to 8 accesses at a time\n",
    );
    line(sys, b"play show TABLE [NAME [operator=N]]\n");
    line(
        sys,
        b"                                  the subscribers, or one: labels, and accesses from the oldest on\n",
    );
    line(
        sys,
        b"play move TABLE TO                the table in the other form, written to TO, a new file; TABLE stays\n",
    );
}

// The command that serves messages.
fn serving(sys: &System) {
    line(
        sys,
        b"play handle TABLE REQUESTS ANSWERS NOTICES [WORD ..]\n",
    );
    line(
        sys,
        b"                                  the messages of REQUESTS put to the server, a line each; the table\n",
    );
    line(
        sys,
        b"                                  changes once all is written. The words, in any order:\n",
    );
    line(
        sys,
        b"    hex                           REQUESTS has a message a line, two digits of base 16 for each byte\n",
    );
    line(
        sys,
        b"    quiet                         only the totals, and what is not as expected\n",
    );
    line(
        sys,
        b"    host=NAME realm=NAME          the server's own names, otherwise wm.example and example\n",
    );
    line(
        sys,
        b"    wag=yes wag=no wags=FILE      the gateway takes every policy, as without a word; or none; or\n",
    );
    line(
        sys,
        b"                                  as FILE says, yes or no, a line for each message\n",
    );
    line(
        sys,
        b"    operator=N                    whose subscribers the messages are about\n",
    );
    line(
        sys,
        b"    only=NAME                     only the messages of that User-Name; the others are passed over\n",
    );
}

// The rest of it: what is expected, and the command that only reads.
fn expecting(sys: &System) {
    line(
        sys,
        b"    codes=FILE                    what is expected, a line for each message: a code, as 2001; one of\n",
    );
    line(
        sys,
        b"                                  an Experimental-Result, as x5001; or the number of a message that\n",
    );
    line(
        sys,
        b"                                  gets no answer, as 6. If something differs, that is said, the table\n",
    );
    line(
        sys,
        b"                                  is as it was, and the status is 1\n",
    );
    line(
        sys,
        b"    board=SCREENS                 a board of screens: SCREENS has a Session-Id a line, and all are off at first. Below\n",
    );
    line(
        sys,
        b"                                  each message how it moves them, unless all is quiet; behind the totals which are lit\n",
    );
    line(
        sys,
        b"play decode FILE                  the messages of a file in words\n",
    );
    line(
        sys,
        b"play decode FILE hex              the same of a file with a message a line\n",
    );
    line(
        sys,
        b"play decode FILE notices          the notices of a file: Session-Id and gateway\n",
    );
}

// The commands on the disconnection of what was cut.
fn disconnecting(sys: &System) {
    line(sys, b"play abort NOTICES REQUESTS HOST REALM [first=N]\n");
    line(
        sys,
        b"                                  a request to disconnect (Abort-Session-Request) for each notice of a table of\n",
    );
    line(
        sys,
        b"                                  form 2, written to REQUESTS; HOST and REALM are the server's own names, and\n",
    );
    line(
        sys,
        b"                                  both identifiers count from N, otherwise from 1. Notices hold no lengths: a\n",
    );
    line(
        sys,
        b"                                  text is taken without the zeros behind it\n",
    );
    line(sys, b"play abort-answers REQUESTS ANSWERS\n");
    line(
        sys,
        b"                                  which answers belong to which requests, and which requests have none; the\n",
    );
    line(
        sys,
        b"                                  status is 1 if an answer belongs to none\n",
    );
}

// The command that plays the gateway.
fn reauthorizing(sys: &System) {
    line(
        sys,
        b"play reauth REQUESTS ANSWERS AA-REQUESTS HOST REALM SESSION USER LABEL [visited=NETWORK] [first=N]\n",
    );
    line(
        sys,
        b"                                  plays the gateway HOST of REALM, which has the access SESSION of USER on\n",
    );
    line(
        sys,
        b"                                  LABEL: each Re-Auth-Request is answered, and where it is good the AA-Request\n",
    );
    line(
        sys,
        b"                                  for the access is written too, for handle; its identifiers count from N\n",
    );
}

// The command that judges the old server.
fn judging(sys: &System) {
    line(
        sys,
        b"play judge CASES BEFORE AFTER HOST REALM [operator=N] [wag=yes|wag=no|wags=FILE]\n",
    );
    line(
        sys,
        b"                                  whether the old server did what ours does. CASES has three lines a case, in\n",
    );
    line(
        sys,
        b"                                  hex: a request, the old server's answer to it and its notice, each of these\n",
    );
    line(
        sys,
        b"                                  two - for none; lines that begin with # are passed over. BEFORE and AFTER\n",
    );
    line(
        sys,
        b"                                  are tables with a row for each case, as it was before and after. The first\n",
    );
    line(
        sys,
        b"                                  mismatch of a case is said, and the status is 1 if one is refused\n",
    );
}

// The commands on reports, and the board.
fn reports(sys: &System) {
    line(
        sys,
        b"play report new REPORT            a report by hour, nothing counted\n",
    );
    line(
        sys,
        b"play report count REPORT TABLE REQUESTS HOURS [operator=N]\n",
    );
    line(
        sys,
        b"                                  what the messages come to on TABLE, which stays as it is, counted at the\n",
    );
    line(
        sys,
        b"                                  hours of HOURS, a line from 0 to 23 for each message\n",
    );
    line(
        sys,
        b"play report add REPORT OTHER      a second report added to the first\n",
    );
    line(
        sys,
        b"play report show REPORT           a bar for each hour, cuts as x beside the other openings\n",
    );
    line(
        sys,
        b"play report draw REPORT           the same as a picture (SVG) on standard output\n",
    );
    line(
        sys,
        b"play board SCREENS TABLE REQUESTS which screens are lit: SCREENS has a Session-Id a line, and\n",
    );
    line(
        sys,
        b"                                  the messages are put to the server on TABLE, which stays as it is\n",
    );
}

// The word that every command on a table takes.
fn forms(sys: &System) {
    line(
        sys,
        b"A command on a table takes form=1 or form=2 behind its other words, the form that the table has: rows of\n",
    );
    line(
        sys,
        b"4,608 bytes, or of 8,704, which hold the gateway's realm and up to three policies too. Without the word the\n",
    );
    line(
        sys,
        b"length of the file tells it; where that fits both forms, as 17 rows of form 1 and 9 of form 2, say it. The same\n",
    );
    line(
        sys,
        b"holds of a file of notices: 3 of form 1 are as long as 2 of form 2.\n",
    );
}

// What else there is, and how files are read.
fn rest(sys: &System) {
    line(
        sys,
        b"play prove                        proves the tool and all below it, and says how far it is\n",
    );
    line(
        sys,
        b"play help, play version           this, and what is proved on this machine; so do --help and --version\n",
    );
    line(
        sys,
        b"Messages stand back to back in their files, if it is not said that they are lines of hex; notices\n",
    );
    line(
        sys,
        b"too, of 256 bytes each on a table of form 1 and of 384 on one of form 2. The operator is 0 where it is not said.\n",
    );
    forms(sys);
}

pub fn say(sys: &System) {
    tables(sys);
    serving(sys);
    expecting(sys);
    disconnecting(sys);
    reauthorizing(sys);
    judging(sys);
    reports(sys);
    rest(sys);
}

// HOW A COMMAND IS USED

// What was meant can not be done with these words: they are no command, or one that was called with too few words or too many.
pub fn refuse(sys: &System, word: &[u8]) {
    let usage: &[u8] = match word {
        b"new" => b"usage: play new TABLE ROWS [form=1|form=2]",
        b"enter" => { b"usage: play enter TABLE NAME [operator=N] [shares=A,B,..] [form=1|form=2]" }
        b"add" => {
            b"usage: play add TABLE NAME LABEL LIMIT [barred] [roam] [operator=N] [form=1|form=2]"
        }
        b"show" => b"usage: play show TABLE [NAME [operator=N]] [form=1|form=2]",
        b"move" => b"usage: play move TABLE TO [form=1|form=2]",
        b"handle" => {
            b"usage: play handle TABLE REQUESTS ANSWERS NOTICES [hex] [quiet] [host=NAME] [realm=NAME] [wag=yes|wag=no|wags=FILE] [operator=N] [only=NAME] [codes=FILE] [board=SCREENS] [form=1|form=2]"
        }
        b"decode" => b"usage: play decode FILE [hex|notices [form=1|form=2]]",
        b"judge" => {
            b"usage: play judge CASES BEFORE AFTER HOST REALM [operator=N] [wag=yes|wag=no|wags=FILE] [form=1|form=2]"
        }
        b"report" => {
            b"usage: play report new|count|add|show|draw REPORT [TABLE REQUESTS HOURS [operator=N] [form=1|form=2]|OTHER]"
        }
        b"board" => b"usage: play board SCREENS TABLE REQUESTS [form=1|form=2]",
        b"abort" => { b"usage: play abort NOTICES REQUESTS HOST REALM [first=N] [form=1|form=2]" }
        b"abort-answers" => b"usage: play abort-answers REQUESTS ANSWERS",
        b"reauth" => {
            b"usage: play reauth REQUESTS ANSWERS AA-REQUESTS HOST REALM SESSION USER LABEL [visited=NETWORK] [first=N]"
        }
        _ => {
            tool_files::refuse_word(sys, word, b": no such command: see play help");
            return;
        }
    };
    tool_files::refuse(sys, usage);
}
