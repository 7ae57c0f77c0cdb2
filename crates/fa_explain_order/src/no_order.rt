//! Replies past which no order goes: what the trees that were alive there hold.

use crate::another::answered_by;
use crate::answers::{exchange, printed};
use crate::looks::Looks;
use crate::rules::{never_answered, never_look_line};
use crate::stepping::{NEVER_RIGHT, because, look_at_answer, look_at_start};
use crate::wording;
use fa_bodies::split_at_byte;
use fa_capture::{Capture, codes};
use fa_ledger::Calls;
use fa_order::Entry;
use fa_refusal::{Case, Placed, Refused};
use fa_show::Text;
use fa_tree::Tree;
use std::alloc::{AllocError, Global};

/// How many bytes of text there is room for.
const ROOM: usize = 65_536;

/// How many bytes of text there is room for in the lines of one tree.
const ROOM_OF_A_TREE: usize = 32_768;

/// So many different reasons are written.
const MOST_REASONS: usize = 8;

/// So many of the last entries that lead to a tree are named.
const LAST: usize = 3;

/// So many requests that were not answered yet are named.
const FEW: usize = 8;

/// How many bytes a label has, with the blank behind it.
const LABEL: usize = 9;

/// The label of the line of the rule.
const RULE: &[u8] = b"rule ";

/// That of a line of what does not hold of a success.
const HERE: &[u8] = b"here ";

/// That of the line that says until when the answer was right.
const EARLIER: &[u8] = b"earlier ";

/// The trees of which lines are written, in front of what to look at.
static ON_TREE: [&str; MOST_REASONS] = [
    "On tree 1: ",
    "On tree 2: ",
    "On tree 3: ",
    "On tree 4: ",
    "On tree 5: ",
    "On tree 6: ",
    "On tree 7: ",
    "On tree 8: ",
];

/// The label of the line that says which part of what a success needs does not hold.
static OF_PARTS: [&[u8]; 1] = [HERE];

/// The same of lines that say what the tree holds: where an error has no cause, and where no part was found.
static OF_TREES: [&[u8]; 1] = [b"tree "];

/// The same of a node that is given for another file.
static OF_NODES: [&[u8]; 2] = [b"given ", HERE];

/// The same of a listing. There they are written too.
static OF_LISTINGS: [&[u8]; 5] = [b"missing ", b"twice ", b"never ", b"type ", b"gone "];

/// The same of attributes and of bytes.
static OF_VALUES: [&[u8]; 1] = [b"differs "];

/// Orders that come to a reply past which no order goes.
#[derive(Clone, Copy)]
pub struct Coming<'a> {
    /// Each leads to another tree. They explain all replies before it, and leave out the request that it answers.
    pub orders: &'a [Vec<Entry>],
    /// How many such trees there are, with those that are told by no order.
    pub trees: usize,
    /// The number of the reply.
    pub at: u32,
}

/// Why no order goes past a reply.
#[derive(Drop)]
pub struct NoOrderReasons {
    /// The lines behind the lines of a verdict that says so.
    pub text: Text,
    /// The place of the order that leads to the tree of which is told first, if there is one.
    pub order: Option<usize>,
}

/// Why no order goes past a reply: the lines behind the lines of a verdict that says so, and which order leads to the first tree in them.
///
/// The calls are those of the capture. The lines say what the request asks for and what it was answered, which rule the answer breaks,
/// which requests were not answered yet, and of each tree that is told by an order what differs there, those on which the same differs as
/// one, eight at most; until when the answer was right, where all orders say the same and there is one for each tree; and what to look at
/// in a server. They are printing ASCII and line feeds alone, whatever the capture holds. Where the message answers no request that acts on
/// the tree there are none.
///
/// # Errors
///
/// [`AllocError`] where memory was refused.
///
/// # Cost
///
/// For each order that of [`order_reasons`](crate::order_reasons) on it, and for each two of them the lines of one that tell what differs
/// are compared with those of the other. Memory for two copies of the tree, 32 KiB, and the lines that tell, once where they are the same.
pub fn no_order_reasons(
    alloc: Global,
    capture: &Capture<'_>,
    calls: &Calls<'_>,
    first: &Tree,
    coming: &Coming<'_>,
) -> Result<NoOrderReasons, AllocError> {
    let mut text = Text::new(alloc, ROOM, false)?;
    let order = match answered_by(calls, coming.at) {
        Some(case) => no_order_lines(alloc, &mut text, capture, calls, first, coming, &case)?,
        None => None,
    };
    Ok(NoOrderReasons { text, order })
}

/// Writes why no order goes past the reply to a request: the place of the order that leads to the tree of which is told first, if there is
/// one.
fn no_order_lines(
    alloc: Global,
    text: &mut Text,
    capture: &Capture<'_>,
    calls: &Calls<'_>,
    first: &Tree,
    coming: &Coming<'_>,
    case: &Case<'_>,
) -> Result<Option<usize>, AllocError> {
    exchange(alloc, text, capture, case)?;
    let mut reasons = Reasons {
        alloc,
        calls,
        first,
        coming,
        asked: case.call.asked,
        list: Vec::new(alloc),
        trees: 0,
        from_start: None,
    };
    reasons.take()?;
    reasons.tell(text, case);
    Ok(reasons.first_order())
}

/// What is known where a search gave up at a message, and what to do: the lines behind the line of a verdict that says so.
///
/// # Errors
///
/// [`AllocError`] where memory was refused.
pub fn gave_up_reasons(alloc: Global, at: u32) -> Result<Text, AllocError> {
    let mut text = Text::new(alloc, ROOM, false)?;
    text.field("order    all replies before message ", u64::from(at));
    text.field(" can be explained; from ", u64::from(at));
    text.word(" on nothing is known");
    text.end_line();
    text.word(
        "look at  More steps may find an answer (`--steps`; ten million without it), unless it is the trees that ran out: 65,536 at once, or 1 GiB. Each request that is under way may double them, and a WRITE that is never answered makes one for each number of its bytes. Then record with fewer requests at once, or have the server note its order, for `fa_audit check`.",
    );
    text.end_line();
    Ok(text)
}

/// Writes which requests that an order may name were not answered yet where a request was answered.
fn beside_line(text: &mut Text, calls: &Calls<'_>, case: &Case<'_>, at: u32) {
    let mut told: usize = 0;
    for place in 0..calls.list.len() {
        let Some(other) = Case::at(calls, place) else {
            break;
        };
        if other.place == case.place || !is_in_flight(&other, at) {
            continue;
        }
        if told < FEW {
            let word = if told == 0 {
                "beside   not answered yet: "
            } else {
                ", "
            };
            wording::request(text, calls, word, other.call.asked);
        }
        told = told.saturating_add(1);
    }
    if told > FEW {
        text.field(", and ", (told - FEW) as u64);
        text.word(" more");
    }
    if told > 0 {
        text.end_line();
    }
}

/// Whether a request that an order may name was sent before a message, and not answered before it.
fn is_in_flight(case: &Case<'_>, at: u32) -> bool {
    let is_answered = match &case.call.answer {
        Some(answer) => answer.at < at,
        None => false,
    };
    case.call.asked < at && !is_answered && case.may_be_placed()
}

/// Writes how many trees there were, and of how many it is told what differs.
fn trees_line(text: &mut Text, coming: &Coming<'_>) {
    let at = u64::from(coming.at);
    text.word("trees    ");
    if coming.trees == 1 {
        text.field("1 tree explains all replies before message ", at);
        text.word(", and refuses this one");
    } else {
        text.number(coming.trees as u64);
        text.field(" trees explain all replies before message ", at);
        text.word(", and each refuses this one");
    }
    if coming.orders.len() < coming.trees {
        text.field("; ", coming.orders.len() as u64);
        text.word(" of them were looked at");
    }
    text.end_line();
}

/// Why trees refuse the answer, on which the same differs.
#[derive(Drop)]
struct Reason {
    /// The number of the order that leads to the first of them,
    order: usize,
    /// and how many there are.
    trees: usize,
    code: u16,
    /// Which of the lines of what to look at fit.
    looks: Looks,
    /// The line of the rule that the answer breaks, empty where there is none,
    rule: Vec<u8>,
    /// those that say what differs,
    differing: Vec<u8>,
    /// and the one that says until when the answer was right, empty where there is none or not the same on all. A line feed ends each.
    earlier: Vec<u8>,
}

impl Reason {
    /// Takes in the lines of it.
    fn take(&mut self, text: &[u8]) -> Result<(), AllocError> {
        let telling = telling(self.code, text);
        for line in text.split(is_line_feed) {
            self.take_line(telling, line)?;
        }
        Ok(())
    }

    /// Takes in a line: where its label is one of these, it says what differs.
    fn take_line(&mut self, telling: &[&[u8]], line: &[u8]) -> Result<(), AllocError> {
        let lines = if has_one(line, telling) {
            &mut self.differing
        } else if line.starts_with(RULE) {
            &mut self.rule
        } else if line.starts_with(EARLIER) {
            &mut self.earlier
        } else {
            return Ok(());
        };
        lines.extend_from_slice(line)?;
        lines.push(b'\n')?;
        Ok(())
    }

    /// Whether the same differs on another tree.
    fn is_same(&self, other: &Reason) -> bool {
        self.code == other.code && self.differing.as_slice() == other.differing.as_slice()
    }

    /// Takes in another tree on which the same differs.
    fn join(&mut self, other: &Reason) {
        self.trees = self.trees.saturating_add(1);
        if self.earlier.as_slice() != other.earlier.as_slice() {
            self.earlier.clear();
        }
    }

    /// Writes what differs on the trees, all but the first behind a label of its own.
    fn tell(&self, text: &mut Text, number: usize) {
        let mut is_first = true;
        for line in self.differing.split(is_line_feed) {
            if line.is_empty() {
                continue;
            }
            if !is_first {
                text.end_line();
                tree_label(text, number);
                text.word("and ");
            }
            self.tell_line(text, line);
            is_first = false;
        }
    }

    /// Writes a line of what differs: of a listing with its label.
    fn tell_line(&self, text: &mut Text, line: &[u8]) {
        if self.code == codes::LISTING {
            printed(text, label_of(line));
            text.word(" ");
        }
        printed(text, behind_label(line));
    }
}

/// The labels of the lines that say what differs on a tree that refuses an answer with this code.
fn telling(code: u16, text: &[u8]) -> &'static [&'static [u8]] {
    match code {
        codes::SUCCESS_NOT_ALLOWED if has_label(text, HERE) => &OF_PARTS,
        codes::SUCCESS_NOT_ALLOWED | codes::ERROR_WITHOUT_CAUSE => &OF_TREES,
        codes::NODE_ID_OF_ANOTHER => &OF_NODES,
        codes::LISTING => &OF_LISTINGS,
        _ => &OF_VALUES,
    }
}

/// Whether a line of a text has this label.
fn has_label(text: &[u8], label: &[u8]) -> bool {
    for line in text.split(is_line_feed) {
        if line.starts_with(label) {
            return true;
        }
    }
    false
}

/// Whether a line has one of these labels.
fn has_one(line: &[u8], labels: &[&[u8]]) -> bool {
    for label in labels {
        if line.starts_with(*label) {
            return true;
        }
    }
    false
}

/// Whether a byte ends a line.
fn is_line_feed(byte: &u8) -> bool {
    *byte == b'\n'
}

/// The label of a line, up to its first blank.
fn label_of(line: &[u8]) -> &[u8] {
    match split_at_byte(line, b' ') {
        Some((label, _)) => label,
        None => &[],
    }
}

/// What stands behind the label of a line.
fn behind_label(line: &[u8]) -> &[u8] {
    let (_, behind) = line.split_at(LABEL.min(line.len()));
    behind
}

/// Why the trees that were alive refuse the answer.
#[derive(Drop)]
struct Reasons<'a> {
    alloc: Global,
    calls: &'a Calls<'a>,
    first: &'a Tree,
    coming: &'a Coming<'a>,
    /// The request that was answered so.
    asked: u32,
    /// By their codes, those with the same one as the orders come.
    list: Vec<Reason>,
    /// On how many trees it is known what differs.
    trees: usize,
    /// The code of the first tree on which that is so from the start.
    from_start: Option<u16>,
}

impl Reasons<'_> {
    /// Takes in why each tree to which an order leads refuses the answer.
    fn take(&mut self) -> Result<(), AllocError> {
        let coming = self.coming;
        let mut text = Text::new(self.alloc, ROOM_OF_A_TREE, false)?;
        for (number, order) in coming.orders.iter().enumerate() {
            text.begin(0);
            self.take_order(&mut text, number, order)?;
        }
        Ok(())
    }

    /// Takes in why the tree to which an order leads refuses the answer that it leaves out.
    fn take_order(
        &mut self,
        text: &mut Text,
        number: usize,
        entries: &[Entry],
    ) -> Result<(), AllocError> {
        let placed = Placed::by(self.alloc, self.calls, entries)?;
        let refused = Refused {
            alloc: self.alloc,
            calls: self.calls,
            first: self.first,
            entries,
            before: entries,
            placed: &placed,
            entry: u32::try_from(entries.len()).unwrap_or(u32::MAX),
            at: self.asked,
            code: codes::ANSWERED_LEFT_OUT,
        };
        let mut tree = self.first.copy()?;
        let taken = self.take_tree(text, &refused, &mut tree, number);
        // It has many tables: they are proved to go in one place.
        drop(tree);
        taken
    }

    /// The same with a tree that is lent, which becomes the one to which the order leads.
    fn take_tree(
        &mut self,
        text: &mut Text,
        refused: &Refused<'_>,
        tree: &mut Tree,
        number: usize,
    ) -> Result<(), AllocError> {
        let Some(reached) = refused.reach(tree)? else {
            return Ok(());
        };
        let Some(code) = reached.code else {
            return Ok(());
        };
        match because(text, refused, tree, &reached.case, code)? {
            Some(looks) => self.add(text, number, code, looks),
            None => Ok(()),
        }
    }

    /// Takes in the lines of a tree: with those of another one on which the same differs, if there is one.
    fn add(
        &mut self,
        text: &Text,
        number: usize,
        code: u16,
        looks: Looks,
    ) -> Result<(), AllocError> {
        self.trees = self.trees.saturating_add(1);
        if looks.is_from_start && self.from_start.is_none() {
            self.from_start = Some(code);
        }
        let mut reason = Reason {
            order: number,
            trees: 1,
            code,
            looks,
            rule: Vec::new(self.alloc),
            differing: Vec::new(self.alloc),
            earlier: Vec::new(self.alloc),
        };
        reason.take(text.as_bytes())?;
        if !self.join_same(&reason) {
            let place = self.place_of(code);
            self.list.insert(place.min(self.list.len()), reason)?;
        }
        Ok(())
    }

    /// Takes in a tree with another one on which the same differs: whether there is one.
    fn join_same(&mut self, reason: &Reason) -> bool {
        for other in self.list.iter_mut() {
            if other.is_same(reason) {
                other.join(reason);
                return true;
            }
        }
        false
    }

    /// How many have no higher code.
    fn place_of(&self, code: u16) -> usize {
        let mut place: usize = 0;
        for reason in &self.list {
            if reason.code <= code {
                place = place.saturating_add(1);
            }
        }
        place
    }

    /// Writes why the trees refuse the answer to a request.
    fn tell(&self, text: &mut Text, case: &Case<'_>) {
        self.rule_lines(text);
        beside_line(text, self.calls, case, self.coming.at);
        trees_line(text, self.coming);
        self.tree_lines(text);
        self.earlier_line(text);
        if !self.list.is_empty() {
            self.look_at(text, case);
        }
    }

    /// The place of the order that leads to the tree of which is told first, if there is one.
    fn first_order(&self) -> Option<usize> {
        match self.list.first() {
            Some(first) => Some(first.order),
            None => None,
        }
    }

    /// Writes the rules that the answer breaks: one for each code with which trees refuse it.
    fn rule_lines(&self, text: &mut Text) {
        let mut before: u16 = 0;
        for reason in &self.list {
            if reason.code != before && !reason.rule.is_empty() {
                text.word("rule     ");
                self.begin_code(text, reason.code);
                printed(text, behind_label(&reason.rule));
                text.end_line();
            }
            before = reason.code;
        }
    }

    /// Whether all trees refuse the answer with this code.
    fn is_only(&self, code: u16) -> bool {
        for reason in &self.list {
            if reason.code != code {
                return false;
            }
        }
        true
    }

    /// Writes a code in front of what is said of it, where trees refuse the answer with different ones.
    fn begin_code(&self, text: &mut Text, code: u16) {
        if !self.is_only(code) {
            text.field("code ", u64::from(code));
            text.word(": ");
        }
    }

    /// Writes what to look at.
    fn look_at(&self, text: &mut Text, case: &Case<'_>) {
        match never_answered(case) {
            Some(error) => never_look_line(text, case, error),
            None => self.look_at_each(text, case),
        }
    }

    /// Writes whether the tree text may be wrong, and what to look at for each code with which trees refuse the answer, by the first of
    /// them. The trees with the last code come first: there most of the answer holds.
    fn look_at_each(&self, text: &mut Text, case: &Case<'_>) {
        if let Some(code) = self.from_start {
            look_at_start(text, code, case, "");
        }
        for behind in 0..=codes::LISTING - codes::SUCCESS_NOT_ALLOWED {
            self.look_at_first(text, case, codes::LISTING - behind);
        }
    }

    /// Writes what to look at for a code, by the first tree that refuses the answer with it, if there is one: which that is, where others
    /// do with another code.
    fn look_at_first(&self, text: &mut Text, case: &Case<'_>, code: u16) {
        for (place, reason) in self.list.iter().enumerate() {
            if reason.code == code {
                let words = if self.is_only(code) {
                    ""
                } else {
                    on_tree(place)
                };
                return look_at_answer(text, code, &reason.looks, case, words);
            }
        }
    }

    /// Writes what differs on each tree, those on which the same does in one line, by their codes.
    fn tree_lines(&self, text: &mut Text) {
        for (place, reason) in self.list.iter().enumerate() {
            if place < MOST_REASONS {
                self.tree_line(text, reason, place.saturating_add(1));
            }
        }
        let told = self.list.len();
        if told > MOST_REASONS {
            text.field("trees    and ", (told - MOST_REASONS) as u64);
            text.word(" more reasons");
            text.end_line();
        }
    }

    /// Writes what differs on trees.
    fn tree_line(&self, text: &mut Text, reason: &Reason, number: usize) {
        tree_label(text, number);
        if let Some(order) = self.coming.orders.get(reason.order) {
            way(text, self.calls, order, self.coming.at);
        }
        self.begin_code(text, reason.code);
        reason.tell(text, number);
        if reason.trees > 1 {
            text.word("; and ");
            text.count(
                reason.trees - 1,
                " more tree with the same",
                " more trees with the same",
            );
        }
        text.end_line();
    }

    /// Writes until when the same answer was right on the way of each order, where that is the same and each tree has an order. That it
    /// never was is not written: by another order to the same tree it may have been.
    fn earlier_line(&self, text: &mut Text) {
        let Some(first) = self.list.first() else {
            return;
        };
        let line = first.earlier.as_slice();
        if self.trees == self.coming.trees
            && !line.is_empty()
            && !line.starts_with(NEVER_RIGHT.as_bytes())
            && self.all_tell(line)
        {
            printed(text, line);
            text.end_line();
        }
    }

    /// Whether each says that the answer was right until then.
    fn all_tell(&self, earlier: &[u8]) -> bool {
        for reason in &self.list {
            if reason.earlier.as_slice() != earlier {
                return false;
            }
        }
        true
    }
}

/// The tree at this place in words, in front of what to look at: none behind the eighth.
fn on_tree(place: usize) -> &'static str {
    match ON_TREE.get(place) {
        Some(words) => *words,
        None => "",
    }
}

/// Writes the label of a line of a tree.
fn tree_label(text: &mut Text, number: usize) {
    text.field("tree ", number as u64);
    text.word(if number < 10 { "   " } else { "  " });
}

/// Writes a word, and behind it the request of an entry, and of a WRITE that was never answered how many bytes it wrote.
fn entry_words(text: &mut Text, calls: &Calls<'_>, word: &str, entry: &Entry) {
    wording::begin_request(text, calls, word, entry.at);
    if let Some(wrote) = entry.wrote {
        text.word(", ");
        text.count(wrote as usize, " byte", " bytes");
    }
    text.word(")");
}

/// Whether the request of an entry was sent before a message, and not answered before it.
fn is_placed_in_flight(calls: &Calls<'_>, entry: &Entry, at: u32) -> bool {
    match Case::of(calls, entry.at) {
        Some(case) => is_in_flight(&case, at),
        None => false,
    }
}

/// Writes the last entries of an order, and before them others of requests that were not answered yet where a message was sent: by these
/// the trees differ.
fn way(text: &mut Text, calls: &Calls<'_>, order: &[Entry], at: u32) {
    let (before, last) = order.split_at(order.len().saturating_sub(LAST));
    if last.is_empty() {
        text.word("from the start: ");
        return;
    }
    let mut told: usize = 0;
    for entry in before {
        if told < FEW && is_placed_in_flight(calls, entry, at) {
            let word = if told == 0 { "with " } else { ", " };
            entry_words(text, calls, word, entry);
            told = told.saturating_add(1);
        }
    }
    let mut word = if told > 0 { ", after " } else { "after " };
    for entry in last {
        entry_words(text, calls, word, entry);
        word = ", ";
    }
    text.word(": ");
}
