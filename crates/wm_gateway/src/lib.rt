// The gateway's own side of re-authorization for C (include/wm.h). It has an archive to itself: beside `wm_handle` in one archive what both write answers with would have two
// callers, and the compiler would no longer put it in line in the server.
#![tactic(auto)]

ghost use Rattle.std.specs.Prelude.{◌≡◌};
ghost use Rattle.gateway.specs.TheGateway.{reauthorize};
ghost use Rattle.gateway.specs.Code.{call_of};
ghost use Rattle.wm_gateway.specs.InC.{leaves_in_c};

// What a Re-Auth-Request got, in C's numbers.
#[repr(C)]
#[derive(Clone, Copy)]
pub struct WmReauthorized {
    pub code: u32,
    pub kind: u32,
    pub length: u32,
    pub request_length: u32,
}

// One Re-Auth-Request for the access that is lent: its answer, and with 2001 the AA-Request for the access.
#[unsafe(no_mangle)]
pub extern "C" fn wm_reauth(
    host: &[u8],
    realm: &[u8],
    session: &[u8],
    user: &[u8],
    label: &[u8],
    visited: &[u8],
    message: &[u8],
    hop: u32,
    end: u32,
    answer: &mut [u8],
    request: &mut [u8],
) -> WmReauthorized
    ensures { leaves_in_c result answer.new request.new
        ≡ reauthorize (call_of host.now realm.now session.now user.now label.now visited.now message.now hop end answer.old request.old) }
{
    let g = gateway::reauthorize(
        host, realm, session, user, label, visited, message, hop, end, answer, request,
    );
    let length = numbers::narrow(g.length);
    let request_length = numbers::narrow(g.request_length);
    let kind = g.kind;
    WmReauthorized {
        code: g.code,
        kind: numbers::kind_number(kind),
        length: length,
        request_length: request_length,
    }
}
