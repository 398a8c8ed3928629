//! The worked message, answers byte for byte, and runs of the program as lines.
use std::alloc::{AllocError, Global};

/// The worked message: a request for a single-use token.
pub const ASKED: &str = "POST /v1/merchants/shop1/tokens HTTP/1.1\r\nHost: vault\r\n\
    X-Vault-Caller: till-1\r\nX-Vault-Request: 7\r\nContent-Length: 44\r\n\r\n\
    {\"number\":\"4111111111111111\",\"use\":\"single\"}";

/// Its answer at the moment 1000, where all drawn digits are 0 or it repeats such a request.
pub const ANSWERED: &str =
    "HTTP/1.1 200 OK\r\nContent-Type: application/json\r\nContent-Length: 43\r\n\r\n\
    {\"expires\":1060,\"token\":\"0000000000001111\"}";

/// The answer with this status line, these fields after the length, and this body.
pub fn answer(alloc: Global, status: &str, fields: &str, body: &str) -> Result<String, AllocError> {
    let size = body.len();
    format!(in alloc;
        "HTTP/1.1 {status}\r\nContent-Type: application/json\r\nContent-Length: {size}\r\n{fields}\r\n{body}"
    )
}

/// A run of the program: its words, its input, its status, its output, and its errors.
pub type Step = (&'static str, &'static str, u8, &'static str, &'static str);

/// A shop with a life of 60, at which `till-1` may ask for tokens.
pub const SHOP: &str = "vault merchant --now 1000 FILE shop1 60 0
vault grant --now 1000 FILE till-1 shop1 tokenize";

/// What a check says on the errors of a file with a log.
pub const HAS_LOG: &str = "vault: the file has a log, FILE-wal, and a copy needs both\n";

/// The words of a line, with a space between two, and with this file in place of `FILE`.
pub fn words_of<'a>(alloc: Global, line: &'a str, file: &'a str) -> Vec<&'a str> {
    let mut words = Vec::new(alloc);
    for word in line.split(' ') {
        let _ = words.push(match word {
            "FILE" => file,
            word => word,
        });
    }
    words
}
