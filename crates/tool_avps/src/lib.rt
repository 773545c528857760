// The AVPs that have a name here: how they are called, and what their values are. A name belongs to code and vendor together.
#![tactic(auto)]

use tool_words::{number, say};

// The vendor 3GPP.
const OUR_VENDOR: u32 = 10415;

// What a value is.
#[derive(Clone, Copy, PartialEq, Eq)]
pub enum Form {
    Bytes,
    Text,
    Number,
    Group,
}

// The value of an AVP without V.
fn base_form(code: u32) -> Form {
    match code {
        1 | 263 | 264 | 280 | 282 | 283 | 293 | 296 | 444 => Form::Text,
        19 | 30 | 31 | 32 | 77 | 87 => Form::Text,
        258 | 266 | 268 | 274 | 278 | 285 | 295 | 298 | 450 => Form::Number,
        5 | 6 | 7 | 12 | 13 | 61 | 62 | 73 | 276 | 277 | 291 => Form::Number,
        279 | 284 | 297 | 401 | 402 | 443 | 578 => Form::Group,
        _ => Form::Bytes,
    }
}

// The value of an AVP of 3GPP.
fn our_form(code: u32) -> Form {
    match code {
        100 | 312 | 600 => Form::Text,
        311 => Form::Number,
        304 => Form::Group,
        _ => Form::Bytes,
    }
}

// What the value of an AVP is.
pub fn form_of(code: u32, flags: u8, vendor: u32) -> Form {
    match vendor {
        _ if flags < 128 => base_form(code),
        OUR_VENDOR => our_form(code),
        _ => Form::Bytes,
    }
}

// What an AVP without V is called.
pub fn base_name(code: u32) -> &'static [u8] {
    match code {
        1 => b"User-Name",
        25 => b"Class",
        258 => b"Auth-Application-Id",
        266 => b"Vendor-Id",
        268 => b"Result-Code",
        274 => b"Auth-Request-Type",
        279 => b"Failed-AVP",
        285 => b"Re-Auth-Request-Type",
        295 => b"Termination-Cause",
        297 => b"Experimental-Result",
        298 => b"Experimental-Result-Code",
        443 => b"Subscription-Id",
        444 => b"Subscription-Id-Data",
        450 => b"Subscription-Id-Type",
        // those that messages between peers begin with or that name them
        263 => b"Session-Id",
        264 => b"Origin-Host",
        278 => b"Origin-State-Id",
        280 => b"Proxy-Host",
        282 => b"Route-Record",
        283 => b"Destination-Realm",
        284 => b"Proxy-Info",
        293 => b"Destination-Host",
        296 => b"Origin-Realm",
        33 => b"Proxy-State",
        // the others of the AA-Request's grammar: of the port and the call
        4 => b"NAS-IP-Address",
        5 => b"NAS-Port",
        19 => b"Callback-Number",
        30 => b"Called-Station-Id",
        31 => b"Calling-Station-Id",
        32 => b"NAS-Identifier",
        61 => b"NAS-Port-Type",
        62 => b"Port-Limit",
        77 => b"Connect-Info",
        87 => b"NAS-Port-Id",
        94 => b"Originating-Line-Info",
        95 => b"NAS-IPv6-Address",
        // of how a user shows itself, and for how long
        2 => b"User-Password",
        6 => b"Service-Type",
        24 => b"State",
        60 => b"CHAP-Challenge",
        70 => b"ARAP-Password",
        73 => b"ARAP-Security",
        74 => b"ARAP-Security-Data",
        276 => b"Auth-Grace-Period",
        277 => b"Auth-Session-State",
        291 => b"Authorization-Lifetime",
        402 => b"CHAP-Auth",
        // of frames and tunnels
        7 => b"Framed-Protocol",
        8 => b"Framed-IP-Address",
        9 => b"Framed-IP-Netmask",
        12 => b"Framed-MTU",
        13 => b"Framed-Compression",
        96 => b"Framed-Interface-Id",
        401 => b"Tunneling",
        578 => b"QoS-Capability",
        // of logins on other hosts
        14 => b"Login-IP-Host",
        34 => b"Login-LAT-Service",
        35 => b"Login-LAT-Node",
        36 => b"Login-LAT-Group",
        63 => b"Login-LAT-Port",
        98 => b"Login-IPv6-Host",
        _ => b"AVP",
    }
}

// What one of 3GPP is called.
pub fn our_name(code: u32) -> &'static [u8] {
    match code {
        100 => b"3GPP-WLAN-APN-Id",
        304 => b"Charging-Data",
        311 => b"Session-Request-Type",
        312 => b"Routing-Policy",
        600 => b"Visited-Network-Identifier",
        _ => b"AVP",
    }
}

// Whose AVP it is, where it has a vendor.
fn vendor_name(out: &mut [u8; 4096], at: usize, vendor: u32) -> usize {
    if vendor == OUR_VENDOR {
        return say(out, at, b" of 3GPP");
    }
    let a = say(out, at, b" of vendor ");
    number(out, a, u64::from(vendor))
}

// An AVP by its name, its number and its vendor.
pub fn name(out: &mut [u8; 4096], at: usize, code: u32, flags: u8, vendor: u32) -> usize {
    let has_vendor = 128 <= flags;
    let name = match vendor {
        _ if !has_vendor => base_name(code),
        OUR_VENDOR => our_name(code),
        _ => b"AVP",
    };
    let a = say(out, at, name);
    let b = say(out, a, b" ");
    let c = number(out, b, u64::from(code));
    if has_vendor {
        return vendor_name(out, c, vendor);
    }
    c
}
