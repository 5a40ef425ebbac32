//! The breakpoints that a session holds.

ghost use Rattle.std.specs.Prelude.{◌≡◌, ◌==◌, ◌<◌, ◌≤◌, true, [], ◌∷◌, if◌then◌else◌, length, map};
ghost use Rattle.std.specs.Prelude.{is_some, option_map, IfErr, IfOk, IfSome, OnOk, OnErr, Err};
ghost use Rattle.std.specs.List.{list_any};
ghost use Rattle.dp_break.specs.Changes.{Adds, IsRequest, changed_to, held_as, with_change, with_new, without};
ghost use Rattle.dp_break.specs.Hits.{depends_on_expression, hits};
ghost use Rattle.dp_break.specs.StopRule.{held_after, one_stops};
ghost use Rattle.dp_break.specs.Causes.{IsCause, answer_of};
ghost use Rattle.dp_break.specs.Refusals.{place_kept, plain_refusal, request_refusal, update_kept, update_refusal};
ghost use Rattle.dp_break.specs.Tables.{IsSound, IsTable, breakpoint_limit, empty, last_id};

use crate::breakpoint::{BreakChange, BreakRequest, Breakpoint};
use crate::conditions::tree_of;
use crate::errors::BreakError;
use crate::hits::is_of_function;
use crate::lines::requested_line;
use crate::moments::{any_hits, mark, settle};
use crate::new_breakpoints::new_breakpoint;
use dp_bytes::Memory;
use dp_lexer::NAME_LIMIT;
use dp_packet::ErrorCode;
use dp_state::{Moment, State};
use dp_tree::Bundle;
use std::alloc::Global;
use std::marker::Model;

/// The most breakpoints.
const BREAKPOINT_LIMIT: usize = 1000;

/// Breakpoints, in ascending order of their ids. Contracts see them and the id that the next one has.
#[derive(Debug, Drop)]
pub struct Breaks {
    held: Vec<Breakpoint>,
    // At least as many as there are breakpoints, so that marking one takes no memory.
    marks: Vec<bool>,
    next: u32,
    alloc: Global,
}

impl Model for Breaks {
    ghost use Rattle.std.specs.Prelude.{◌≤◌, length};
    ghost use Rattle.dp_break.specs.Tables.{Table, IsTable, table_code};

    ghost Value = { Table };

    ghost coded = { table_code };

    ghost view = { λ b. record { held = b.held.items; next = b.next } };

    ghost invariant = { λ b. (IsTable (record { held = b.held.items; next = b.next }))
        × (length b.held.items ≤ length b.marks.items) };
}

/// Changes a breakpoint, if it has this id. Takes no memory.
fn change_one(
    breakpoint: &mut Breakpoint,
    id: u32,
    change: BreakChange,
    line: Option<u32>,
    resolve: bool,
)
    ensures { breakpoint.new ≡
        if breakpoint.old.id == id then changed_to change line resolve breakpoint.old else breakpoint.old }
{
    if breakpoint.id == id {
        breakpoint.change(change, line, resolve);
    }
}

/// Changes the breakpoint with this id. Takes no memory.
fn change_held(
    held: &mut Vec<Breakpoint>,
    id: u32,
    change: BreakChange,
    line: Option<u32>,
    resolve: bool,
)
    ensures { held.new.items ≡
        map (λ b. if b.id == id then changed_to change line resolve b else b) held.old.items }
{
    for breakpoint in held.iter_mut() {
        change_one(breakpoint, id, change, line, resolve);
    }
}

/// Makes room for one mark more than so many.
fn make_room(marks: &mut Vec<bool>, count: usize) -> Result<(), Memory>
    requires { count ≤ length marks.old.items }
    ensures room { OnOk result (count < length marks.new.items) }
    ensures kept { count ≤ length marks.new.items }
{
    if marks.len() == count {
        marks.push(false)?;
    }
    Ok(())
}

impl Breaks {
    /// No breakpoints. Takes no memory.
    pub fn new(alloc: Global) -> Breaks
        ensures { result ≡ empty }
    {
        Breaks {
            held: Vec::new(alloc),
            marks: Vec::new(alloc),
            next: 1,
            alloc,
        }
    }

    /// The breakpoints, in ascending order of their ids. Takes no memory.
    pub fn list(&self) -> &[Breakpoint]
        ensures held { result.now ≡ self.now.held }
        ensures table { IsTable self.now }
    {
        self.held.as_slice()
    }

    /// The id that the next one gets. Takes no memory.
    pub fn next_id(&self) -> u32
        ensures { result ≡ self.now.next }
    {
        self.next
    }

    /// The breakpoint with this id. Takes no memory.
    pub fn get(&self, id: u32) -> Option<&Breakpoint>
        ensures found { option_map (λ b. b.now) result ≡ held_as self.now.held id }
        ensures table { IsTable self.now }
    {
        self.held
            .as_slice()
            .iter()
            .find(|breakpoint| breakpoint.id == id)
    }

    /// Holds a new breakpoint and answers its id. Ids count from 1, and none is used again. The file of a request
    /// stands in the bundle, and the request has the parts that are of its kind.
    ///
    /// It is refused with the first of these codes whose test holds: 200 where 1,000 breakpoints are held, no id below
    /// 4,294,967,295 is left, or the name of a function has more than 255 bytes; 202 where the file does not have the
    /// line; 203 where no code is on it; 207 where the expression has more than 4,096 bytes, is none, or may change
    /// something. Then, and where memory runs out, nothing has changed.
    ///
    /// With `resolve` the line that it has is the next one that has code, from that which was asked for on; 203 is then
    /// for a line behind which, itself among them, no line has code.
    pub fn add(
        &mut self,
        bundle: &Bundle,
        request: BreakRequest,
        resolve: bool,
    ) -> Result<u32, BreakError>
        requires { IsRequest bundle.now request }
        ensures added { IfOk result (λ id. Adds resolve bundle.now self.old request id self.new) }
        ensures refused { IfErr result (IsCause (request_refusal resolve bundle.now self.old request)) }
        // Where only an expression would take memory, or nothing, it is refused whatever memory there is.
        ensures surely { IfSome (plain_refusal resolve bundle.now self.old request) (λ code.
            result ≡ Err (BreakError.Code code)) }
        ensures unchanged { OnErr result (self.new ≡ self.old) }
    {
        let line = match self.place_kept(bundle, &request, resolve) {
            Ok(line) => line,
            Err(code) => return Err(BreakError::Code(code)),
        };
        let tree = tree_of(self.alloc, &request.expression)?;
        let id = self.next;
        self.hold(new_breakpoint(id, tree, line, resolve, request))?;
        Ok(id)
    }

    /// The line that is kept of a request, or the first of the codes 200, 202 and 203 with which it is refused.
    fn place_kept(
        &self,
        bundle: &Bundle,
        request: &BreakRequest,
        resolve: bool,
    ) -> Result<Option<u32>, ErrorCode>
        ensures { result ≡ place_kept resolve bundle.now self.now request.now }
    {
        if self.held.len() >= BREAKPOINT_LIMIT || self.next == u32::MAX {
            return Err(ErrorCode::BreakpointNotSet);
        }
        if let Some(name) = &request.function {
            if name.len() > NAME_LIMIT {
                return Err(ErrorCode::BreakpointNotSet);
            }
        }
        requested_line(resolve, bundle, Some(request.file), request.line)
    }

    /// Holds a breakpoint that has the next id.
    fn hold(&mut self, breakpoint: Breakpoint) -> Result<(), Memory>
        requires numbered { breakpoint.id ≡ self.old.next }
        requires room { length self.old.held < breakpoint_limit }
        requires id { self.old.next < last_id }
        requires sound { IsSound breakpoint }
        ensures held { OnOk result (self.new ≡ with_new breakpoint self.old) }
        ensures unchanged { OnErr result (self.new ≡ self.old) }
    {
        make_room(&mut self.marks, self.held.len())?;
        self.held.push(breakpoint)?;
        self.next += 1;
        Ok(())
    }

    /// Changes a breakpoint. Its count stays. It is refused with the first of these codes whose test holds: 205 where
    /// no breakpoint has the id; 3 where a line is given to one on a function; 202 where the file does not have the
    /// line, and 203 where no code is on it. Then nothing has changed. With `resolve` lines are as those of `add`.
    /// Takes no memory.
    pub fn update(
        &mut self,
        bundle: &Bundle,
        id: u32,
        change: BreakChange,
        resolve: bool,
    ) -> Result<(), BreakError>
        ensures answer { result ≡ answer_of (update_refusal resolve bundle.now change (held_as self.old.held id)) tt }
        ensures changed { OnOk result (self.new ≡ with_change resolve bundle.now id change self.old) }
        ensures unchanged { OnErr result (self.new ≡ self.old) }
    {
        match self.update_kept(bundle, id, change, resolve) {
            Ok(line) => {
                change_held(&mut self.held, id, change, line, resolve);
                Ok(())
            }
            Err(code) => Err(BreakError::Code(code)),
        }
    }

    /// The line that is kept of a change, if it gives one, or the first of the codes 205, 3, 202 and 203 with which it
    /// is refused.
    fn update_kept(
        &self,
        bundle: &Bundle,
        id: u32,
        change: BreakChange,
        resolve: bool,
    ) -> Result<Option<u32>, ErrorCode>
        ensures { result ≡ update_kept resolve bundle.now change (held_as self.now.held id) }
    {
        let Some(breakpoint) = self.get(id) else {
            return Err(ErrorCode::NoSuchBreakpoint);
        };
        if is_of_function(breakpoint.kind) && change.line.is_some() {
            return Err(ErrorCode::InvalidOptions);
        }
        requested_line(resolve, bundle, breakpoint.file, change.line)
    }

    /// Takes out the breakpoint with this id, and says whether there was one. Takes no memory.
    pub fn remove(&mut self, id: u32) -> bool
        ensures found { result ≡ is_some (held_as self.old.held id) }
        ensures left { self.new ≡ without id self.old }
    {
        let found = self.get(id).is_some();
        self.held.retain(|breakpoint| breakpoint.id != id);
        found
    }

    /// Whether a breakpoint hits at a moment in this state, in which expressions are evaluated. Memory is taken only
    /// where an enabled breakpoint whose place is that of the moment has an expression.
    pub fn is_hit(&self, bundle: &Bundle, moment: &Moment, state: &State) -> Result<bool, Memory>
        ensures hit { IfOk result (λ hit. hit ≡ list_any (hits bundle.now (moment.now, state.now)) self.now.held) }
        ensures memory { OnErr result (list_any (depends_on_expression moment.now) self.now.held ≡ true) }
    {
        any_hits(self.alloc, bundle, moment, state, self.held.as_slice())
    }

    /// Counts the hits of a moment in this state, takes out the temporary breakpoints that stop, and says whether one
    /// stops. Memory is taken only where an enabled breakpoint whose place is that of the moment has an expression;
    /// where it runs out, no breakpoint has changed.
    pub fn pass(&mut self, bundle: &Bundle, moment: &Moment, state: &State) -> Result<bool, Memory>
        ensures held { OnOk result (self.new ≡ record self.old {
          held = held_after bundle.now ((moment.now, state.now) ∷ []) self.old.held;
        }) }
        ensures stop { IfOk result (λ stop.
            stop ≡ one_stops bundle.now self.old.held [] (moment.now, state.now)) }
        ensures unchanged { OnErr result (self.new ≡ self.old) }
        ensures memory { OnErr result (list_any (depends_on_expression moment.now) self.old.held ≡ true) }
    {
        let alloc = self.alloc;
        mark(
            alloc,
            bundle,
            moment,
            state,
            self.held.as_slice(),
            &mut self.marks,
        )?;
        Ok(settle(&mut self.held, self.marks.as_slice()))
    }
}
