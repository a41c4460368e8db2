//! The clients of a world, each with its session. One that has no subscription is not kept.
ghost use Rattle.std.specs.Prelude.{◌≡◌, ◌++◌, ◌≤◌, ◌<◌, List, IfNone, IfOk, IfSome, OnOk, Some, false};
ghost use Rattle.std.specs.Prelude.{length, map, option_map, position, vec_capacity, vec_len};
ghost use Rattle.std.specs.List.{insert};
ghost use Rattle.wq_follow.specs.Followed.{subscription_data};
ghost use Rattle.wq_follow.specs.Subscription.{SubscriptionData};
ghost use Rattle.wq_session.specs.Need.{need_of};
ghost use Rattle.wq_crawl.specs.At.{at_data};
ghost use Rattle.wq_session.specs.Desk.{stand};
ghost use Rattle.wq_session.specs.Followed.{follows_of};
ghost use Rattle.wq_session.specs.Moment.{Idles};
ghost use Rattle.wq_session.specs.Shelved.{shelf_data};
ghost use Rattle.wq_crawl.specs.Views.{ReadyData};
ghost use Rattle.wq_session.specs.Desk.{Replies};
ghost use Rattle.wq_replay.specs.Client.{follows_in, is_of, other_clients, root_numbers_of, with_root_number};
ghost use Rattle.wq_replay.specs.Clients.{FollowsNow, kept_client};
ghost use Rattle.wq_replay.specs.Gets.{kept};

use crate::client::Client;
use std::alloc::{AllocError, Global};
use wq_ask::Ask;
use wq_crawl::{At, Views};
use wq_follow::{Subscription, Trigger};
use wq_registry::Shelf;
use wq_reply::Alone;
use wq_session::{Out, Session};

/// The reply to the ask of a client, and the views after it. If there is no room to keep the client, nothing changes.
pub(crate) fn answer<V: Views + Drop>(
    clients: &mut Vec<Client>,
    alloc: Global,
    number: i64,
    ask: Ask,
    views: V,
    shelf: &mut Shelf<Trigger>,
) -> Result<(V, Out), AllocError>
    ensures { IfOk result (λ it. (ready : ReadyData) × (left : List SubscriptionData)
        × V.readies views (need_of ask) ready it.0
        × Replies false ready ask
        (stand (Some (shelf_data shelf.old)) (follows_in number clients.old.items))
        it.1 (stand (Some (shelf_data shelf.new)) left)
        × FollowsNow number (kept (it.1).goes_on left) clients.old.items clients.new.items) }
{
    clients.reserve(1)?;
    let mut session = take_out(clients, alloc, number);
    let (views, out) = session.answer(&Alone {}, ask, views, shelf);
    if out.goes_on() {
        put_back(clients, number, session);
    }
    Ok((views, out))
}

/// The lists that an idle moment of a root gives out to a client. If there is no room to keep the client, nothing
/// changes.
pub(crate) fn idle(
    clients: &mut Vec<Client>,
    alloc: Global,
    number: i64,
    root: u64,
    at: Option<At<'_>>,
) -> Result<Out, AllocError>
    ensures { IfOk result (λ out. (left : List SubscriptionData)
        × Idles root (option_map at_data at.entry) (follows_in number clients.old.items) out left
        × FollowsNow number left clients.old.items clients.new.items) }
{
    clients.reserve(1)?;
    let mut session = take_out(clients, alloc, number);
    let out = session.idle(root, at);
    put_back(clients, number, session);
    Ok(out)
}

/// Takes a client out, and gives its session: a new one, if none was kept.
fn take_out(clients: &mut Vec<Client>, alloc: Global, number: i64) -> Session
    ensures session { follows_of result ≡ follows_in number clients.old.items }
    ensures others { clients.new.items ≡ other_clients number clients.old.items }
    ensures shorter { vec_len clients.new ≤ vec_len clients.old }
    ensures room { vec_capacity clients.new ≡ vec_capacity clients.old }
{
    let session = match place_of(clients, number) {
        Some(place) => clients.remove(place).session,
        None => Session::new(alloc),
    };
    drop_client(clients, number);
    session
}

/// The place of a client.
fn place_of(clients: &[Client], number: i64) -> Option<usize>
    ensures { result ≡ position (is_of number) clients.now }
{
    clients.iter().position(|client| number == client.number)
}

/// Takes a client out.
fn drop_client(clients: &mut Vec<Client>, number: i64)
    ensures others { clients.new.items ≡ other_clients number clients.old.items }
    ensures shorter { vec_len clients.new ≤ vec_len clients.old }
    ensures room { vec_capacity clients.new ≡ vec_capacity clients.old }
{
    clients.retain(|client| number != client.number);
}

/// Keeps a session under its client, if it has subscriptions.
fn put_back(clients: &mut Vec<Client>, number: i64, session: Session)
    requires { vec_len clients.old < vec_capacity clients.old }
    ensures { clients.new.items ≡ clients.old.items ++ kept_client number session }
{
    if session.subscriptions().is_empty() {
        return;
    }
    match clients.push(Client { number, session }) {
        Ok(()) => {}
        Err(_) => unreachable!(),
    }
}

/// The numbers of the roots of a client's subscriptions, each once, ascending.
pub(crate) fn numbers(
    clients: &[Client],
    alloc: Global,
    number: i64,
) -> Result<Vec<u64>, AllocError>
    ensures { IfOk result (λ numbers. numbers.items
        ≡ root_numbers_of (follows_in number clients.now)) }
{
    match place_of(clients, number) {
        Some(place) => root_numbers(alloc, clients[place].session.subscriptions()),
        None => Ok(Vec::new(alloc)),
    }
}

/// The numbers of the roots of these subscriptions, each once, ascending.
fn root_numbers(alloc: Global, subscriptions: &[Subscription]) -> Result<Vec<u64>, AllocError>
    ensures { IfOk result (λ numbers. numbers.items
        ≡ root_numbers_of (map subscription_data subscriptions.now)) }
{
    let mut numbers = Vec::new(alloc);
    for subscription in subscriptions {
        put_number(&mut numbers, subscription.number())?;
    }
    Ok(numbers)
}

/// Puts a number among ascending numbers, if it is not there.
fn put_number(numbers: &mut Vec<u64>, number: u64) -> Result<(), AllocError>
    ensures { OnOk result (numbers.new.items ≡ with_root_number number numbers.old.items) }
{
    if let Some(place) = place_for(numbers, number) {
        numbers.insert(place, number)?;
    }
    Ok(())
}

/// The place for a number among ascending numbers, if it is not there.
fn place_for(numbers: &[u64], number: u64) -> Option<usize>
    ensures there { IfNone result (numbers.now ≡ with_root_number number numbers.now) }
    ensures within { IfSome result (λ place. place ≤ length numbers.now) }
    ensures put { IfSome result (λ place.
        insert numbers.now place number ≡ with_root_number number numbers.now) }
{
    for place in 0..numbers.len() {
        let first = numbers[place];
        if first == number {
            return None;
        }
        if number < first {
            return Some(place);
        }
    }
    Some(numbers.len())
}
