//! JSON read over memory that is kept from line to line.
ghost use Rattle.std.specs.Prelude.{◌≡◌, ◌==◌, ◌<◌, ◌∷◌, ℕ, List, length, slice_index, option_map, string_bytes, IfSome, IfOk, IfErr, OnSome, IsUtf8, IsTrue, Some, None};
ghost use Rattle.fast_float.specs.Text.{minus};
ghost use Rattle.json.specs.Json.{read_key};
ghost use Rattle.json.specs.Reads.{token_of};
ghost use Rattle.json.specs.Token as grammar;
ghost use Rattle.serde_json.specs.Data.{put};
ghost use Rattle.serde_json.specs.Errors.{IsMemory};
ghost use Rattle.serde_json.specs.Read.{number_of, read};
ghost use Rattle.serde_json.specs.View.{members_view, number_view, view};
ghost use Rattle.tmem_requests.specs.Tokens.{SpellsValue};

use fast_float::Numeral;
use json::{Reader, Scratch, Token};
use serde_json::{Map, Number, Value};
use std::alloc::Global;

// How deep arrays and objects may nest, as for `Value::from_slice`.
const MAX_DEPTH: usize = 127;

/// The memory that lines are read over. To make it means to zero 16 KiB, so one is kept from line to line.
#[derive(Drop)]
pub struct ReadBuffer {
    scratch: Scratch,
}

impl ReadBuffer {
    /// One that no line was read over yet.
    pub fn new(alloc: Global) -> ReadBuffer {
        ReadBuffer {
            scratch: Scratch::new(alloc),
        }
    }

    /// The value that a text is. Where it is none that `value_in` knows, `Value::from_slice` reads it anew, and says why not.
    pub(crate) fn read(&mut self, alloc: Global, text: &[u8]) -> Result<Value, serde_json::Error>
        ensures ok { IfOk result (λ value. IsUtf8 text.now × (read text.now ≡ Some (view value))) }
        ensures err { IfErr result (λ e. ¬ IsMemory e → IsUtf8 text.now → read text.now ≡ None) }
    {
        match self.value(alloc, text) {
            Some(value) => Ok(value),
            None => Value::from_slice(alloc, text),
        }
    }

    fn value(&mut self, alloc: Global, text: &[u8]) -> Option<Value>
        ensures utf8 { OnSome result (IsUtf8 text.now) }
        ensures value { IfSome result (λ value. read text.now ≡ Some (view value)) }
    {
        let text = std::str::from_utf8(text).ok()?;
        let mut reader = Reader::new(text, &mut self.scratch).ok()?;
        let value = value_in(alloc, &mut reader, MAX_DEPTH)?;
        match reader.next() {
            Some(_) => None,
            None => Some(value),
        }
    }
}

// The next value of a reader, if memory suffices and its numbers are integers.
#[cycle(value)]
fn value_in(alloc: Global, reader: &mut Reader<'_>, depth: usize) -> Option<Value>
    ensures value { IfSome result (λ value. SpellsValue depth reader.old (view value) reader.new) }
    ensures shorter { OnSome result (length reader.new < length reader.old) }
{
    match reader.next()? {
        Token::BeginArray => array_in(alloc, reader, depth),
        Token::BeginObject => object_in(alloc, reader, depth),
        token => value_alone(alloc, token),
    }
}

// The value that a token is by itself.
fn value_alone(alloc: Global, token: Token<'_>) -> Option<Value>
    ensures { (depth : ℕ) (old new : List grammar.Token) → old ≡ token_of token.entry ∷ new → IfSome result (λ value. SpellsValue depth old (view value) new) }
{
    match token {
        Token::String(text) => Some(Value::String(String::from_str(alloc, text).ok()?)),
        Token::Number(text) => Some(Value::Number(integer_of(text)?)),
        Token::Bool(b) => Some(Value::Bool(b)),
        Token::Null => Some(Value::Null),
        _ => None,
    }
}

// The array whose items come next, with its end.
#[cycle(value)]
fn array_in(alloc: Global, reader: &mut Reader<'_>, depth: usize) -> Option<Value>
    ensures value { IfSome result (λ value. (old : List grammar.Token) → old ≡ grammar.begin_array ∷ reader.old → SpellsValue depth old (view value) reader.new) }
    ensures shorter { OnSome result (length reader.new < length reader.old) }
{
    let inner = depth.checked_sub(1)?;
    let mut items = Vec::new(alloc);
    'items: while !reader.take_end_array() {
        let item = value_in(alloc, reader, inner)?;
        items.push(item).ok()?;
    }
    Some(Value::Array(items))
}

// The object whose members come next, with its end. Of a key that stands twice the last value stays.
#[cycle(value)]
fn object_in(alloc: Global, reader: &mut Reader<'_>, depth: usize) -> Option<Value>
    ensures value { IfSome result (λ value. (old : List grammar.Token) → old ≡ grammar.begin_object ∷ reader.old → SpellsValue depth old (view value) reader.new) }
    ensures shorter { OnSome result (length reader.new < length reader.old) }
{
    let inner = depth.checked_sub(1)?;
    let mut members = Map::new(alloc);
    'members: while let Some(key) = key_in(alloc, reader)? {
        let member = value_in(alloc, reader, inner)?;
        put_member(&mut members, key, member)?;
    }
    Some(Value::Object(members))
}

// The next key of an object, or none at its end.
fn key_in(alloc: Global, reader: &mut Reader<'_>) -> Option<Option<String>>
    ensures key { IfSome result (λ key. read_key reader.old ≡ Some (option_map string_bytes key, reader.new)) }
    ensures shorter { OnSome result (length reader.new < length reader.old) }
{
    match reader.next_key() {
        Ok(Some(key)) => Some(Some(String::from_str(alloc, key).ok()?)),
        Ok(None) => Some(None),
        Err(_) => None,
    }
}

// Puts a member into others, in place of that of its key.
fn put_member(members: &mut Map<String, Value>, key: String, member: Value) -> Option<()>
    ensures { OnSome result (members_view members.new.entries ≡ put (string_bytes key) (view member) (members_view members.old.entries)) }
{
    drop(members.insert(key, member).ok()?);
    Some(())
}

// The integer of 64 bits that a numeral is.
fn integer_of(text: &str) -> Option<Number>
    ensures { IfSome result (λ number. number_of text.now ≡ Some (number_view number)) }
{
    let bytes = text.as_bytes();
    if !is_negative(bytes) {
        return Some(Number::from(Numeral::scan(bytes).to_u64()?));
    }
    let number = Numeral::scan(&bytes[1..]).to_i64(true)?;
    // (-0 is a float)
    if number == 0 {
        return None;
    }
    Some(Number::from(number))
}

fn is_negative(numeral: &[u8]) -> bool
    ensures minus { result ≡ (slice_index numeral.now 0 == minus) }
    ensures some { IsTrue result → 0 < length numeral.now }
{
    !numeral.is_empty() && numeral[0] == b'-'
}
