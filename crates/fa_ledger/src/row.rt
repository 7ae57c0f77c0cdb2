//! A call as the book of the calls keeps it.

ghost use Rattle.std.specs.Prelude.{◌≡◌, ◌≢◌, ◌<◌, ◌^◌, ℕ, ◌++◌, List, None, Some, IfSome, IfNone, IfOk, OnErr, length, option_map, vec_len, vec_capacity, Vec};
ghost use Rattle.std.specs.declared.alloc.Global.{Global};
ghost use Rattle.fa_ledger.specs.Calls.{answer_shown, call_shown, given_shown};
ghost use Rattle.fa_ledger.specs.parts.CallParts.{waiting_of};
ghost use Rattle.fa_ledger.specs.declared.name.NodeName.{NodeName};
ghost use Rattle.fa_ledger.specs.parts.RowParts.{row_shown, other_kept, listing_kept, handle_kept, names_kept, answer_kept, beside_at, beside_kept, beside_place, gives_kept, node_kept, AreNotBoth, IsAmong, IsPlaceIn};
ghost use Rattle.fa_ledger.specs.parts.Ids.{IsGivenIn, IsIdIn};
ghost use Rattle.fa_ledger.specs.parts.Steps.{answered_by, given_names_shown, IsSeveral};

use crate::call::{Answer, Call, GivenNodes, Listing};
use crate::giving::GivenNames;
use crate::messages::{CallMessages, id_in};
use crate::name::NodeName;
use std::alloc::{AllocError, Global};
use std::mem::size_of;

/// What a request says beside the node that it is on: another node, or what it goes on from if it lists. None says both.
#[derive(Clone, Copy, Debug)]
pub(crate) enum Beside {
    /// Neither.
    Nothing,
    /// The other node is the root.
    Root,
    /// The other node is one that was given.
    Node {
        by: u32,
        id: u64,
    },
    /// It lists, and no answer's entries count.
    Lists {
        adrift: bool,
        shared: bool,
    },
    /// It lists, and goes on from so many entries of the answer to a request.
    GoesOn {
        adrift: bool,
        shared: bool,
        asked: u32,
        count: u32,
    },
}

impl Beside {
    /// The other node or the listing, whichever there is.
    #[inline(always)]
    pub fn new(other: Option<NodeName>, listing: Option<Listing>) -> Self
        requires { AreNotBoth other listing }
        ensures other { other_kept result ≡ other }
        ensures listing { listing_kept result ≡ listing }
    {
        match (other, listing) {
            (Some(NodeName::Root), _) => Beside::Root,
            (Some(NodeName::Given { by, id }), _) => Beside::Node { by, id },
            (None, Some(listing)) => Self::listed(listing),
            (None, None) => Beside::Nothing,
        }
    }

    /// Puts it behind those of other requests, and gives its place there. Where there is none, nothing is put there, and it has none. Where
    /// memory is refused they are as they were.
    #[inline(always)]
    pub fn put_in(self, besides: &mut Vec<Beside>) -> Result<Option<u32>, AllocError>
        ensures there { IfOk result (λ place. beside_at besides.new.items place ≡ self) }
        ensures within { IfOk result (λ place. IsPlaceIn (length besides.new.items) place) }
        ensures kept { IfOk result (λ place. (more : List Beside) × (besides.new.items ≡ besides.old.items ++ more)) }
        ensures unchanged { OnErr result (besides.new.items ≡ besides.old.items) }
    {
        if matches!(self, Beside::Nothing) {
            return Ok(None);
        }
        // There are fewer than 2 ^ 24 messages, so it always is.
        let Ok(place) = u32::try_from(besides.len()) else {
            return Err(AllocError);
        };
        besides.push(self)?;
        Ok(Some(place))
    }

    /// What a listing goes on from.
    #[inline(always)]
    fn listed(listing: Listing) -> Self
        ensures other { other_kept result ≡ None }
        ensures listing { listing_kept result ≡ Some listing }
    {
        let Listing {
            before,
            adrift,
            shared,
        } = listing;
        match before {
            Some((asked, count)) => Beside::GoesOn {
                adrift,
                shared,
                asked,
                count,
            },
            None => Beside::Lists { adrift, shared },
        }
    }

    /// The other node, if it names one.
    #[inline(always)]
    fn other(self) -> Option<NodeName>
        ensures { result ≡ other_kept self }
    {
        match self {
            Beside::Root => Some(NodeName::Root),
            Beside::Node { by, id } => Some(NodeName::Given { by, id }),
            _ => None,
        }
    }

    /// What it goes on from, if it lists.
    #[inline(always)]
    pub fn listing(self) -> Option<Listing>
        ensures { result ≡ listing_kept self }
    {
        match self {
            Beside::Lists { adrift, shared } => Some(Listing {
                before: None,
                adrift,
                shared,
            }),
            Beside::GoesOn {
                adrift,
                shared,
                asked,
                count,
            } => Some(Listing {
                before: Some((asked, count)),
                adrift,
                shared,
            }),
            _ => None,
        }
    }
}

/// The nodes that an answer gives.
#[derive(Clone, Copy, Debug)]
pub(crate) enum Gives {
    /// None.
    Nothing,
    /// The root: no reply gives it, but a name may be its.
    Root,
    /// One that was given, by this reply. Its id stands in the message of the answer.
    Node { by: u32 },
    /// Those of a listing, by the place of their names among such lists.
    Several { place: u32 },
}

impl Gives {
    /// Those that have these names. Those of a listing become the last of such lists.
    #[inline(always)]
    pub fn new(given: GivenNames, listed: &mut Vec<Vec<NodeName>>) -> Self
        requires room { IsSeveral given → vec_len listed.old < vec_capacity listed.old }
        requires few { IsSeveral given → vec_len listed.old < 2 ^ 32 }
        ensures given { (reply : List ℕ) → IsGivenIn reply given → names_kept reply listed.new.items result ≡ given_names_shown given }
        ensures among { IsAmong (length listed.new.items) result }
        ensures kept { (more : List (Vec NodeName Global)) × (listed.new.items ≡ listed.old.items ++ more) }
    {
        match given {
            GivenNames::Nothing => Gives::Nothing,
            GivenNames::One(NodeName::Root) => Gives::Root,
            GivenNames::One(NodeName::Given { by, .. }) => Gives::Node { by },
            GivenNames::Several(names) => {
                // Room is made only where this is so.
                let place = u32::try_from(listed.len()).unwrap_or(u32::MAX);
                listed.push_reserved(Box::into_inner(names));
                Gives::Several { place }
            }
        }
    }

    /// Their names, where this is the message of the answer, and those of listings are these.
    #[inline(always)]
    fn names<'x>(self, reply: &[u8], listed: &'x [Vec<NodeName>]) -> GivenNodes<'x>
        ensures { given_shown result ≡ names_kept reply.now listed.now self }
    {
        match self {
            Gives::Nothing => GivenNodes::Nothing,
            Gives::Root => GivenNodes::One(NodeName::Root),
            Gives::Node { by } => GivenNodes::One(NodeName::Given {
                by,
                id: id_in(reply),
            }),
            Gives::Several { place } => match listed.get(place as usize) {
                Some(names) => GivenNodes::Several(names),
                None => GivenNodes::Nothing,
            },
        }
    }
}

/// Which [`Gives`] an answer has; what that holds is `given` of the row.
#[derive(Clone, Copy, Debug)]
pub(crate) enum GivesKind {
    Nothing,
    Root,
    Node,
    Several,
}

/// Whether there is an answer, and whether it opens a file handle that was not open.
#[derive(Clone, Copy, Debug)]
pub(crate) enum AnswerKind {
    Missing,
    Plain,
    Opening,
}

/// What is known of a call that waits for its answer.
#[derive(Clone, Copy, Debug)]
pub(crate) struct WaitingCall {
    /// The node of its header, by name.
    pub node: NodeName,
    /// The file handle that it uses, by name.
    pub handle: Option<u32>,
    /// Whether it lists, and its listing is adrift.
    pub adrift: bool,
}

/// What only some calls have, beside their rows.
#[derive(Drop)]
pub(crate) struct Aside {
    /// The other node or the listing of each request that has one.
    pub besides: Vec<Beside>,
    /// The names of the nodes that an answer gives, of each that gives several.
    pub listed: Vec<Vec<NodeName>>,
}

/// A call in 64 bytes: what it holds stands in parts, so that no gap is left. The id of its node, and that of a node which its answer gives
/// alone, are read again from the messages; what only some calls have is in [`Aside`]. It is plain data, with nothing to give back.
#[derive(Clone, Copy, Debug)]
pub(crate) struct Row<'a> {
    pub messages: CallMessages<'a>,
    /// Which reply gave the node, where that is not the root.
    pub node_by: u32,
    /// Which reply gave the node that is given, or the place of the names of several.
    pub given: u32,
    pub asked: u32,
    /// The number of the answer's message, if there is an answer.
    pub answered_at: u32,
    /// The file handle that it uses, if it uses one.
    pub handle: u32,
    /// The place of its other node or listing, if it has one.
    pub beside: u32,
    pub is_on_root: bool,
    pub has_handle: bool,
    pub has_beside: bool,
    pub direct: bool,
    pub truncates: bool,
    pub gives: GivesKind,
    pub answered: AnswerKind,
}

const _: () = prove!(size_of::<Row<'static>>() <= 64);

const _: () = prove!(size_of::<Beside>() <= 16);

impl<'a> Row<'a> {
    /// That of a call without an answer, whose other node or listing has this place.
    #[inline(always)]
    pub fn waiting(call: Call<'a>, beside: Option<u32>) -> Self
        requires waits { call.answer ≡ None }
        requires named { IsIdIn call.messages.request.now call.node }
        ensures shown { (aside : Aside) → other_kept (beside_at aside.besides.items beside) ≡ call.entry.other → listing_kept (beside_at aside.besides.items beside) ≡ call.entry.listing
            → row_shown aside result ≡ call_shown call.entry }
        ensures beside { beside_place result ≡ beside }
        ensures gives { gives_kept result ≡ Gives.Nothing }
    {
        let (is_on_root, node_by) = match call.node {
            NodeName::Root => (true, 0),
            NodeName::Given { by, .. } => (false, by),
        };
        Row {
            messages: call.messages,
            node_by,
            given: 0,
            asked: call.asked,
            answered_at: 0,
            handle: call.handle.unwrap_or(0),
            beside: beside.unwrap_or(0),
            is_on_root,
            has_handle: call.handle.is_some(),
            has_beside: beside.is_some(),
            direct: call.direct,
            truncates: call.truncates,
            gives: GivesKind::Nothing,
            answered: AnswerKind::Missing,
        }
    }

    /// Notes the answer with both messages: its number, the nodes that it gives, and whether it opens a handle.
    #[inline(always)]
    pub fn note_answer(&mut self, messages: CallMessages<'a>, at: u32, gives: Gives, opens: bool)
        requires named { IsIdIn messages.request.now (node_kept self.old) }
        ensures shown { (aside : Aside) → row_shown aside self.new ≡ answered_by messages.entry.said.0 (record { at = at; given = names_kept messages.entry.reply.now aside.listed.items gives; opens = opens }) (row_shown aside self.old) }
        ensures beside { beside_place self.new ≡ beside_place self.old }
        ensures gives { gives_kept self.new ≡ gives }
    {
        let (kind, given) = match gives {
            Gives::Nothing => (GivesKind::Nothing, 0),
            Gives::Root => (GivesKind::Root, 0),
            Gives::Node { by } => (GivesKind::Node, by),
            Gives::Several { place } => (GivesKind::Several, place),
        };
        self.messages = messages;
        self.given = given;
        self.answered_at = at;
        self.gives = kind;
        self.answered = if opens {
            AnswerKind::Opening
        } else {
            AnswerKind::Plain
        };
    }

    /// What it is, where these stand beside the rows.
    #[inline(always)]
    pub fn call<'x>(&'x self, aside: &'x Aside) -> Call<'x>
        ensures { call_shown result ≡ row_shown aside.now self.now }
    {
        let beside = self.beside(aside);
        Call {
            asked: self.asked,
            messages: self.messages,
            node: self.node(),
            other: beside.other(),
            handle: self.handle(),
            direct: self.direct,
            truncates: self.truncates,
            listing: beside.listing(),
            answer: self.answer(aside),
        }
    }

    /// What is known of it, if it waits for its answer.
    #[inline(always)]
    pub fn waiting_call(&self, aside: &Aside) -> Option<WaitingCall>
        ensures known { IfSome result (λ waiting. waiting ≡ waiting_of (row_shown aside.now self.now)) }
        ensures unanswered { IfSome result (λ waiting. answer_kept aside.now self.now ≡ None) }
        ensures none { IfNone result (answer_kept aside.now self.now ≢ None) }
    {
        match self.answered {
            AnswerKind::Missing => Some(WaitingCall {
                node: self.node(),
                handle: self.handle(),
                adrift: self
                    .beside(aside)
                    .listing()
                    .is_some_and(|listing| listing.adrift),
            }),
            AnswerKind::Plain | AnswerKind::Opening => None,
        }
    }

    /// The node that it is on, by name.
    #[inline(always)]
    fn node(&self) -> NodeName
        ensures { result ≡ node_kept self.now }
    {
        if self.is_on_root {
            return NodeName::Root;
        }
        NodeName::Given {
            by: self.node_by,
            id: id_in(self.messages.request),
        }
    }

    /// The other node or the listing, where these stand beside the rows.
    #[inline(always)]
    fn beside(&self, aside: &Aside) -> Beside
        ensures { result ≡ beside_kept aside.now self.now }
    {
        if !self.has_beside {
            return Beside::Nothing;
        }
        match aside.besides.get(self.beside as usize) {
            Some(beside) => *beside,
            None => Beside::Nothing,
        }
    }

    /// The file handle that it uses, if any.
    #[inline(always)]
    fn handle(&self) -> Option<u32>
        ensures { result ≡ handle_kept self.now }
    {
        self.has_handle.then_some(self.handle)
    }

    /// The nodes that its answer gives.
    #[inline(always)]
    fn gives(&self) -> Gives
        ensures { result ≡ gives_kept self.now }
    {
        match self.gives {
            GivesKind::Nothing => Gives::Nothing,
            GivesKind::Root => Gives::Root,
            GivesKind::Node => Gives::Node { by: self.given },
            GivesKind::Several => Gives::Several { place: self.given },
        }
    }

    /// Its answer, if it has one, where these stand beside the rows.
    #[inline(always)]
    fn answer<'x>(&self, aside: &'x Aside) -> Option<Answer<'x>>
        ensures { option_map answer_shown result ≡ answer_kept aside.now self.now }
    {
        let opens = match self.answered {
            AnswerKind::Missing => return None,
            AnswerKind::Plain => false,
            AnswerKind::Opening => true,
        };
        Some(Answer {
            at: self.answered_at,
            given: self.gives().names(self.messages.reply, &aside.listed),
            opens,
        })
    }
}
