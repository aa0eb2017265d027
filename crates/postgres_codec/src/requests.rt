//! What is sent.

ghost use Rattle.std.specs.Prelude.{◌≡◌, ◌≤◌, ◌++◌, [], IsFalse, IfErr, IfOk, OnOk, length};
ghost use Rattle.std.specs.Int.{w32, to_be_bytes};
ghost use Rattle.postgres_codec.specs.Requests.{Makes, message, first_message, text, value};
ghost use Rattle.postgres_codec.specs.Requests.{all_values, bytes_of, bytes_of_value, has_zero};
ghost use Rattle.postgres_codec.specs.Requests.{is_long, parse_body, bind_body, start_body};
ghost use Rattle.postgres_codec.specs.Requests.{sasl_body, query_made};
ghost use Rattle.postgres_codec.specs.Requests.{bound, bound_made, statement_made, named_made};
ghost use Rattle.postgres_codec.specs.Requests.{query_with_made, prepare_made, prepared_made, close_made};
ghost use Rattle.postgres_codec.specs.Requests.{start_made, cancel_made};
ghost use Rattle.postgres_codec.specs.Requests.{login_made, setting, IsWhy};

use std::alloc::{AllocError, AllocFailed, Global};

/// The longest body that is sent, in bytes: no server takes a longer one.
const LONGEST: usize = 0x3fff_ffff;
/// The most values that a query may have.
const MOST: usize = 65_535;
/// Version 3.0 of the protocol.
const VERSION: u32 = 196_608;
/// What asks for the end of another connection's query.
const CANCEL: u32 = 80_877_102;

/// Why a request can't be made.
#[derive(Clone, Copy, Debug, PartialEq, Eq)]
pub enum RequestError {
    Memory,
    /// It has a zero byte, which the server would take for the end of a text.
    ZeroByte,
    /// It has more than 65,535 values.
    TooManyValues,
    /// It is longer than a server takes.
    TooMuch,
}

impl From<AllocError> for RequestError {
    ghost use Rattle.postgres_codec.specs.declared.requests.RequestError.TheVariants.{Memory};

    ghost from_gives = { λ _ e. e ≡ Memory };

    fn from(_error: AllocError) -> RequestError {
        RequestError::Memory
    }
}

impl<T: Drop> From<AllocFailed<T>> for RequestError {
    ghost use Rattle.postgres_codec.specs.declared.requests.RequestError.TheVariants.{Memory};

    ghost from_gives = { λ _ e. e ≡ Memory };

    fn from(_error: AllocFailed<T>) -> RequestError {
        RequestError::Memory
    }
}

fn has_zero(text: &str) -> bool
    ensures { result ≡ has_zero text.now }
{
    text.as_bytes().contains(&0)
}

// A text that a zero ends, behind what is there.
fn push_text(body: &mut Vec<u8>, words: &[u8]) -> Result<(), AllocError>
    ensures { OnOk result (body.new.items ≡ body.old.items ++ text words.now) }
{
    body.extend_from_slice(words)?;
    body.push(0)?;
    Ok(())
}

fn push_number(body: &mut Vec<u8>, number: u32) -> Result<(), AllocError>
    ensures { OnOk result (body.new.items ≡ body.old.items ++ to_be_bytes w32 number) }
{
    body.extend_from_slice(&number.to_be_bytes())
}

// A message without a kind, behind what is there.
fn push_first(messages: &mut Vec<u8>, body: &[u8]) -> Result<(), RequestError>
    ensures ok { OnOk result (messages.new.items ≡ messages.old.items ++ first_message body.now) }
    ensures fits { OnOk result (IsFalse (is_long body.now)) }
    ensures why { IfErr result (λ why. IsWhy why (is_long body.now)) }
{
    if body.len() > LONGEST {
        return Err(RequestError::TooMuch);
    }
    push_number(messages, body.len() as u32 + 4)?;
    messages.extend_from_slice(body)?;
    Ok(())
}

// A message, behind those that are there.
fn push_message(messages: &mut Vec<u8>, kind: u8, body: &[u8]) -> Result<(), RequestError>
    ensures ok { OnOk result (messages.new.items ≡ messages.old.items ++ message kind body.now) }
    ensures fits { OnOk result (IsFalse (is_long body.now)) }
    ensures why { IfErr result (λ why. IsWhy why (is_long body.now)) }
{
    messages.push(kind)?;
    push_first(messages, body)
}

/// The bytes of a query, or of several with `;` between them.
#[tactic(auto, unfolding(crate::specs::Requests::query_made))]
pub fn query(alloc: Global, words: &str) -> Result<Vec<u8>, RequestError>
    ensures { Makes result (query_made words.now) }
{
    if has_zero(words) {
        return Err(RequestError::ZeroByte);
    }
    let mut body = Vec::new(alloc);
    push_text(&mut body, words.as_bytes())?;
    let mut messages = Vec::new(alloc);
    push_message(&mut messages, b'Q', body.as_slice())?;
    Ok(messages)
}

// A value behind its length, which is below zero for NULL.
fn push_value(body: &mut Vec<u8>, words: Option<&str>) -> Result<(), RequestError>
    ensures ok { OnOk result
        (body.new.items ≡ body.old.items ++ value (bytes_of_value words.entry)) }
    ensures why { IfErr result (λ why. IsWhy why (is_long (value (bytes_of_value words.entry)))) }
{
    match words {
        Some(words) if words.len() > LONGEST => return Err(RequestError::TooMuch),
        Some(words) => {
            push_number(body, words.len() as u32)?;
            body.extend_from_slice(words.as_bytes())?;
        }
        None => body.extend_from_slice(&[0xff; 4])?,
    }
    Ok(())
}

fn push_values(body: &mut Vec<u8>, values: &[Option<&str>]) -> Result<(), RequestError>
    ensures ok { OnOk result
        (body.new.items ≡ body.old.items ++ all_values (bytes_of values.now)) }
    ensures why { IfErr result (λ why. IsWhy why (is_long (all_values (bytes_of values.now)))) }
{
    for words in values {
        push_value(body, *words)?;
    }
    Ok(())
}

// What binds values to the statement of a name.
fn bind_body(alloc: Global, name: &[u8], values: &[Option<&str>]) -> Result<Vec<u8>, RequestError>
    requires { length values.now ≤ 65535 }
    ensures ok { IfOk result (λ body. body.items ≡ bind_body name.now (bytes_of values.now)) }
    ensures why { IfErr result (λ why.
        IsWhy why (is_long (bind_body name.now (bytes_of values.now)))) }
{
    let count = values.len() as u16;
    let mut body = Vec::new(alloc);
    push_text(&mut body, b"")?;
    push_text(&mut body, name)?;
    body.extend_from_slice(&[0; 2])?;
    body.extend_from_slice(&count.to_be_bytes())?;
    push_values(&mut body, values)?;
    body.extend_from_slice(&[0; 2])?;
    Ok(body)
}

// A statement of a name.
fn parse_body(alloc: Global, name: &[u8], words: &str) -> Result<Vec<u8>, AllocError>
    ensures { IfOk result (λ body. body.items ≡ parse_body name.now words.now) }
{
    let mut body = Vec::new(alloc);
    push_text(&mut body, name)?;
    push_text(&mut body, words.as_bytes())?;
    body.extend_from_slice(&[0; 2])?;
    Ok(body)
}

// Values for a statement, to be answered as one with what stands before.
fn push_bound(messages: &mut Vec<u8>, bind: &[u8]) -> Result<(), RequestError>
    ensures ok { OnOk result (messages.new.items ≡ messages.old.items ++ bound bind.now) }
    ensures fits { OnOk result (IsFalse (is_long bind.now)) }
    ensures why { IfErr result (λ why. IsWhy why (is_long bind.now)) }
{
    push_message(messages, b'B', bind)?;
    push_message(messages, b'E', &[0; 5])?;
    push_message(messages, b'S', &[])?;
    Ok(())
}

// A statement, and its values.
#[tactic(auto, unfolding(crate::specs::Requests::statement_made))]
fn statement(alloc: Global, parse: &[u8], bind: &[u8]) -> Result<Vec<u8>, RequestError>
    ensures { Makes result (statement_made parse.now bind.now) }
{
    let mut messages = Vec::new(alloc);
    push_message(&mut messages, b'P', parse)?;
    push_bound(&mut messages, bind)?;
    Ok(messages)
}

fn named(
    alloc: Global,
    name: &[u8],
    words: &str,
    values: &[Option<&str>],
) -> Result<Vec<u8>, RequestError>
    ensures { Makes result (named_made name.now words.now (bytes_of values.now)) }
{
    if has_zero(words) {
        return Err(RequestError::ZeroByte);
    }
    if values.len() > MOST {
        return Err(RequestError::TooManyValues);
    }
    let parse = parse_body(alloc, name, words)?;
    let bind = bind_body(alloc, name, values)?;
    statement(alloc, parse.as_slice(), bind.as_slice())
}

/// The bytes of one query, with values for `$1`, `$2` and so on: each as text, or None for NULL. The
/// server finds the types of the parameters, and sends all rows.
pub fn query_with(
    alloc: Global,
    words: &str,
    values: &[Option<&str>],
) -> Result<Vec<u8>, RequestError>
    ensures { Makes result (query_with_made words.now (bytes_of values.now)) }
{
    named(alloc, b"", words, values)
}

/// The same; and the server keeps the statement under a name, which no other has there, for
/// `prepared`. An error, or that of the server, leaves open whether it does.
#[tactic(auto, unfolding(crate::specs::Requests::prepare_made))]
pub fn prepare(
    alloc: Global,
    name: &str,
    words: &str,
    values: &[Option<&str>],
) -> Result<Vec<u8>, RequestError>
    ensures { Makes result (prepare_made name.now words.now (bytes_of values.now)) }
{
    if has_zero(name) {
        return Err(RequestError::ZeroByte);
    }
    named(alloc, name.as_bytes(), words, values)
}

#[tactic(auto, unfolding(crate::specs::Requests::bound_made))]
fn bound(alloc: Global, bind: &[u8]) -> Result<Vec<u8>, RequestError>
    ensures { Makes result (bound_made bind.now) }
{
    let mut messages = Vec::new(alloc);
    push_bound(&mut messages, bind)?;
    Ok(messages)
}

/// The bytes of a query whose statement the server keeps under a name, with its values.
pub fn prepared(alloc: Global, name: &str, values: &[Option<&str>]) -> Result<Vec<u8>, RequestError>
    ensures { Makes result (prepared_made name.now (bytes_of values.now)) }
{
    if has_zero(name) {
        return Err(RequestError::ZeroByte);
    }
    if values.len() > MOST {
        return Err(RequestError::TooManyValues);
    }
    let bind = bind_body(alloc, name.as_bytes(), values)?;
    bound(alloc, bind.as_slice())
}

/// What lets the server forget the statement that it keeps under a name, if there is one. It stands
/// before a query, and has no end of its own.
#[tactic(auto, unfolding(crate::specs::Requests::close_made))]
pub fn close(alloc: Global, name: &str) -> Result<Vec<u8>, RequestError>
    ensures { Makes result (close_made name.now) }
{
    if has_zero(name) {
        return Err(RequestError::ZeroByte);
    }
    let mut body = Vec::new(alloc);
    body.push(b'S')?;
    push_text(&mut body, name.as_bytes())?;
    let mut messages = Vec::new(alloc);
    push_message(&mut messages, b'C', body.as_slice())?;
    Ok(messages)
}

/// What begins a connection, for a user and a database.
#[tactic(auto, unfolding(crate::specs::Requests::start_made))]
pub fn start(alloc: Global, user: &str, database: &str) -> Result<Vec<u8>, RequestError>
    ensures { Makes result (start_made user.now database.now) }
{
    if has_zero(user) || has_zero(database) {
        return Err(RequestError::ZeroByte);
    }
    let body = start_body(alloc, user, database)?;
    let mut messages = Vec::new(alloc);
    push_first(&mut messages, body.as_slice())?;
    Ok(messages)
}

#[tactic(auto, unfolding(crate::specs::Requests::setting))]
fn push_setting(body: &mut Vec<u8>, name: &[u8], value: &[u8]) -> Result<(), AllocError>
    ensures { OnOk result (body.new.items ≡ body.old.items ++ setting name.now value.now) }
{
    push_text(body, name)?;
    push_text(body, value)
}

fn start_body(alloc: Global, user: &str, database: &str) -> Result<Vec<u8>, AllocError>
    ensures { IfOk result (λ body. body.items ≡ start_body user.now database.now) }
{
    let mut body = Vec::new(alloc);
    push_number(&mut body, VERSION)?;
    push_setting(&mut body, b"user", user.as_bytes())?;
    push_setting(&mut body, b"database", database.as_bytes())?;
    push_setting(&mut body, b"client_encoding", b"UTF8")?;
    body.push(0)?;
    Ok(body)
}

/// What asks, over a connection of its own, for the end of the query of another one, by its key.
#[tactic(auto, unfolding(crate::specs::Requests::cancel_made))]
pub fn cancel(alloc: Global, key: &[u8]) -> Result<Vec<u8>, RequestError>
    ensures { Makes result (cancel_made key.now) }
{
    let mut body = Vec::new(alloc);
    push_number(&mut body, CANCEL)?;
    body.extend_from_slice(key)?;
    let mut messages = Vec::new(alloc);
    push_first(&mut messages, body.as_slice())?;
    Ok(messages)
}

// A step of a login.
#[tactic(auto, unfolding(crate::specs::Requests::login_made))]
fn login(alloc: Global, body: &[u8]) -> Result<Vec<u8>, RequestError>
    ensures { Makes result (login_made body.now) }
{
    let mut messages = Vec::new(alloc);
    push_message(&mut messages, b'p', body)?;
    Ok(messages)
}

/// A password, or what stands for it by MD5.
pub fn password(alloc: Global, words: &[u8]) -> Result<Vec<u8>, RequestError>
    ensures { Makes result (login_made (text words.now)) }
{
    let mut body = Vec::new(alloc);
    push_text(&mut body, words)?;
    login(alloc, body.as_slice())
}

/// The first message of a login by SASL, and its way.
pub fn sasl_first(alloc: Global, way: &[u8], words: &[u8]) -> Result<Vec<u8>, RequestError>
    ensures { Makes result (login_made (sasl_body way.now words.now)) }
{
    if words.len() > LONGEST {
        return Err(RequestError::TooMuch);
    }
    let mut body = Vec::new(alloc);
    push_text(&mut body, way)?;
    push_number(&mut body, words.len() as u32)?;
    body.extend_from_slice(words)?;
    login(alloc, body.as_slice())
}

/// What answers a server's challenge in it.
pub fn sasl_next(alloc: Global, words: &[u8]) -> Result<Vec<u8>, RequestError>
    ensures { Makes result (login_made words.now) }
{
    login(alloc, words)
}
