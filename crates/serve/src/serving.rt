ghost use Rattle.std.specs.Prelude.{◌<◌, ◌^◌, length};

use crate::client::{Client, MAX_MODULE_SIZE, Received};
use crate::ending::Ending;
use answers::{Answer, Cause, explain, obey};
use callback::Callback;
use core_types::FuncType;
use embed::{Config, Embedding, HostDef, NewFault, Refusal, Reply};
use messages::ReadFault;
use orders::{Order, read_order};
use std::alloc::{AllocError, Global};
use std::mem;

// The names and the type of a host function.
#[derive(Drop)]
struct Definition {
    module: String,
    name: String,
    ty: FuncType,
}

// What a message requests before there is an embedding.
#[derive(Drop)]
enum Preparation {
    // Define a host function.
    Define(Definition),
    // Create the embedding.
    Begin(Config),
    // Give the embedding a quota of that many bytes.
    Quota(u64),
    // End.
    End,
    // Send only this answer.
    Answered(Answer),
}

// The kind of an order to end.
const END: u64 = 0;

// Returns the answer that an order is refused.
fn refused(refusal: Refusal) -> Answer {
    Answer::Refused(Cause::Command(refusal))
}

// Returns the answer to a message that was not read.
fn unread(fault: ReadFault) -> Answer {
    match fault {
        ReadFault::NotSpelt => Answer::NotSpelt,
        ReadFault::OutOfMemory => refused(Refusal::OutOfMemory),
    }
}

// Creates a definition with its own names.
fn make_definition(
    alloc: Global,
    module: &str,
    name: &str,
    ty: FuncType,
) -> Result<Definition, AllocError> {
    let module = String::from_str(alloc, module)?;
    let name = String::from_str(alloc, name)?;
    Ok(Definition { module, name, ty })
}

// Returns the setup of four numbers, if each is in its range.
fn make_config(fuel: u64, depth: u64, pages: u64, entries: u64) -> Option<Config> {
    let depth = u32::try_from(depth).ok()?;
    let pages = u32::try_from(pages).ok()?;
    let entries = u32::try_from(entries).ok()?;
    Config::new(fuel, depth, pages, entries)
}

// Returns what an order requests before there is an embedding.
fn prepare(alloc: Global, order: Order<'_>) -> Preparation {
    match order {
        Order::End => Preparation::End,
        Order::Define(module, name, ty) => match make_definition(alloc, module, name, ty) {
            Ok(definition) => Preparation::Define(definition),
            Err(_) => Preparation::Answered(unread(ReadFault::OutOfMemory)),
        },
        Order::Begin(fuel, depth, pages, entries) => {
            match make_config(fuel, depth, pages, entries) {
                Some(config) => Preparation::Begin(config),
                None => Preparation::Answered(Answer::Refused(Cause::Setup)),
            }
        }
        Order::Quota(bytes) => Preparation::Quota(bytes),
        _ => Preparation::Answered(Answer::NotNow),
    }
}

// Returns what an order of a kind requests before there is an embedding.
fn preparation_of(alloc: Global, kind: u64, fields: &[u8]) -> Preparation {
    match read_order(alloc, kind, fields) {
        Ok(order) => prepare(alloc, order),
        Err(fault) => Preparation::Answered(unread(fault)),
    }
}

// Returns what the next message requests before there is an embedding.
fn next_preparation(alloc: Global, client: &mut Client) -> Result<Preparation, Ending> {
    match client.receive()? {
        Received::Order(kind) => Ok(preparation_of(alloc, kind, client.fields())),
        Received::Explain => Ok(Preparation::Answered(Answer::NotNow)),
        Received::TooLarge(_) => Ok(Preparation::Answered(refused(Refusal::Limit))),
        Received::OutOfMemory => Ok(Preparation::Answered(refused(Refusal::OutOfMemory))),
    }
}

// Obeys an order of a kind.
fn answer_order(
    alloc: Global,
    kind: u64,
    fields: &[u8],
    embedding: &mut Embedding,
    files: &mut Vec<(String, Vec<u8>)>,
) -> Answer
    requires nothing { Unit {0} }
{
    match read_order(alloc, kind, fields) {
        Ok(order) => obey(alloc, embedding, &order, files),
        Err(fault) => unread(fault),
    }
}

// The last order, other than one to explain it.
#[derive(Drop)]
enum LastOrder {
    // It was not refused.
    Answered,
    // An order of this kind was refused.
    Refused(u64, Cause),
    // It was to load a module of that many bytes, which are too many.
    TooLarge(u64),
}

// Returns whether an answer is that the order is refused.
fn is_refusal(answer: &Answer) -> bool {
    matches!(
        answer,
        Answer::Refused(_) | Answer::Applied(Reply::Refused(_))
    )
}

// Returns the order of a kind as the last one, with its answer.
fn last_order(kind: u64, answer: Answer) -> LastOrder {
    match answer {
        Answer::Refused(cause) => LastOrder::Refused(kind, cause),
        Answer::Applied(Reply::Refused(refusal)) => {
            LastOrder::Refused(kind, Cause::Command(refusal))
        }
        _ => LastOrder::Answered,
    }
}

// Explains why a module of that many bytes is refused.
fn explain_size(alloc: Global, size: u64) -> Answer {
    match format!(in alloc;
        "module exceeds a limit: {size} bytes, and at most {MAX_MODULE_SIZE} are allowed"
    ) {
        Ok(text) => Answer::Text(text),
        Err(_) => refused(Refusal::OutOfMemory),
    }
}

// Explains why the last order, with these fields, was refused, if it was.
fn answer_explain(alloc: Global, last: &LastOrder, fields: &[u8], embedding: &Embedding) -> Answer
    requires nothing { Unit {0} }
{
    match last {
        LastOrder::Answered => Answer::NotNow,
        LastOrder::Refused(kind, cause) => match read_order(alloc, *kind, fields) {
            Ok(order) => explain(alloc, embedding, &order, cause),
            Err(fault) => unread(fault),
        },
        LastOrder::TooLarge(size) => explain_size(alloc, *size),
    }
}

// Answers the next message, and makes it the last order, if it is one. Returns whether more are to follow.
fn serve_message(
    alloc: Global,
    client: &mut Client,
    embedding: &mut Embedding,
    files: &mut Vec<(String, Vec<u8>)>,
    last: &mut LastOrder,
) -> Result<bool, Ending>
    requires nothing { Unit {0} }
{
    match client.receive()? {
        Received::Order(kind) => {
            let answer = answer_order(alloc, kind, client.fields(), embedding, files);
            client.send(&answer)?;
            let is_over = kind == END && matches!(&answer, Answer::Done);
            // most orders are not refused, and nothing is moved for them
            if is_refusal(&answer) || !matches!(last, LastOrder::Answered) {
                *last = last_order(kind, answer);
            }
            return Ok(!is_over);
        }
        Received::Explain => {
            let answer = answer_explain(alloc, last, client.fields(), embedding);
            client.send(&answer)?;
        }
        Received::TooLarge(size) => {
            client.send(&refused(Refusal::Limit))?;
            *last = LastOrder::TooLarge(size);
        }
        Received::OutOfMemory => {
            client.send(&refused(Refusal::OutOfMemory))?;
            *last = LastOrder::Refused(END, Cause::Command(Refusal::OutOfMemory));
        }
    }
    Ok(true)
}

// Answers messages until the end.
fn serve_embedding(
    alloc: Global,
    client: &mut Client,
    embedding: &mut Embedding,
) -> Result<(), Ending>
    requires nothing { Unit {0} }
{
    let mut files = Vec::new(alloc);
    let mut last = LastOrder::Answered;
    for _ in 0..u64::MAX {
        if !serve_message(alloc, client, embedding, &mut files, &mut last)? {
            return Ok(());
        }
    }
    Ok(())
}

// Returns how the server ended, after the last message was answered.
fn ending_of(sent: Result<(), Ending>) -> Ending {
    match sent {
        Ok(()) => Ending::Told,
        Err(ending) => ending,
    }
}

// Replies that the embedding was created, and answers messages until the end.
fn serve_new_embedding(
    alloc: Global,
    client: &mut Client,
    embedding: &mut Embedding,
) -> Result<(), Ending>
    requires nothing { Unit {0} }
{
    client.send(&Answer::Done)?;
    serve_embedding(alloc, client, embedding)
}

// Creates an embedding with these host functions, and serves it to its end.
fn serve_host_functions(
    alloc: Global,
    client: &mut Client,
    config: Config,
    hosts: Vec<HostDef>,
    quota: u64,
) -> Result<Ending, NewFault>
    requires { length hosts.items < 2 ^ 32 }
{
    let mut embedding = Embedding::with_quota(alloc, config, hosts, quota)?;
    Ok(ending_of(serve_new_embedding(alloc, client, &mut embedding)))
}

// A host function that the client executes, with its names.
#[derive(Drop)]
struct ClientFunction {
    module: String,
    name: String,
    func: Box<Callback>,
}

// Creates the host function of a definition, after that many others.
fn make_function(
    alloc: Global,
    before: usize,
    (ask, hear): (i32, i32),
    definition: Definition,
) -> Result<ClientFunction, AllocError> {
    let number = u32::try_from(before).map_err(|_| AllocError)?;
    let Definition { module, name, ty } = definition;
    let func = Box::new(alloc, Callback::new(alloc, number, ask, hear, ty))?;
    Ok(ClientFunction { module, name, func })
}

// Returns the answer to a definition: it is done, or memory ran out.
fn answer_definition(is_defined: bool) -> Answer {
    if is_defined {
        Answer::Done
    } else {
        unread(ReadFault::OutOfMemory)
    }
}

// Answers messages until there is an embedding, and serves it to its end.
fn serve_client(
    alloc: Global,
    descriptors: (i32, i32),
    client: &mut Client,
    first_quota: u64,
) -> Ending {
    let mut hosts = Vec::new(alloc);
    let mut quota = first_quota;
    for _ in 0..u64::MAX {
        let answer = match next_preparation(alloc, client) {
            Err(ending) => return ending,
            Ok(Preparation::Answered(answer)) => answer,
            Ok(Preparation::End) => return ending_of(client.send(&Answer::Done)),
            Ok(Preparation::Define(definition)) => {
                match make_function(alloc, hosts.len(), descriptors, definition) {
                    Ok(ClientFunction { module, name, func }) => {
                        answer_definition(hosts.push(HostDef { module, name, func }).is_ok())
                    }
                    Err(_) => answer_definition(false),
                }
            }
            Ok(Preparation::Quota(bytes)) => {
                quota = u64::min(bytes, first_quota);
                Answer::Done
            }
            Ok(Preparation::Begin(config)) => {
                if hosts.len() > 0xFFFF_FFFF {
                    return Ending::OutOfMemory;
                }
                let defined = mem::replace(&mut hosts, Vec::new(alloc));
                match serve_host_functions(alloc, client, config, defined, quota) {
                    Ok(ending) => return ending,
                    Err(fault) => Answer::Refused(Cause::Creation(fault)),
                }
            }
        };
        if let Err(ending) = client.send(&answer) {
            return ending;
        }
    }
    Ending::InputOver
}

/// Serves a client until it sends the end. Messages are written to the descriptor `ask` and read from `hear`. First host
/// functions are defined, then an embedding is created with them, and then orders are obeyed. Each order gets one reply. The
/// embedding has a quota of `quota` bytes, or of fewer if the client orders that.
pub fn serve(alloc: Global, ask: i32, hear: i32, quota: u64) -> Ending {
    match Client::new(alloc, ask, hear) {
        Ok(mut client) => serve_client(alloc, (ask, hear), &mut client, quota),
        Err(_) => Ending::OutOfMemory,
    }
}
