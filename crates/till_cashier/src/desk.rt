//! What a till has beside its book.

ghost use Rattle.std.specs.Prelude.{◌≡◌, IfOk, IsSome, OnOk, Some};
ghost use Rattle.shop_model.specs.Calendar.{seconds_of};
ghost use Rattle.till_client.specs.Replies.{seen_answer};
ghost use Rattle.till_cashier.specs.Asking.{IsAnswered};
ghost use Rattle.till_cashier.specs.Clock.{local_clock};
ghost use Rattle.till_requests.specs.Zones.{offset_of};
ghost use Rattle.till_cashier.specs.Faults.{giver_of};
ghost use Rattle.till_cashier.specs.Today.{IsOnWall};
ghost use Rattle.till_cashier.specs.Looking.{IsNowBehind};

use crate::caches::Shelf;
use crate::clock::WallClock;
use crate::fault::TillFault;
use crate::line::Link;
use crate::wall::on_wall;
use counter_routes::Routes;
use jiff_tz::TimeZone;
use shop_types::{Moment, StaffNo};
use std::alloc::Global;
use std::time::Duration;
use till_client::{Answer, ask};
use till_requests::{Settings, moment_at, zone_offset, zone_second};
use till_work::{Identity, Server};

/// How often something is asked for that changes nothing.
const ROUNDS: u64 = 3;

/// What a till works with beside its book: a clock, the way to the server, a shelf for lists, the server's own reader
/// of requests, and its settings.
#[derive(Drop)]
pub struct Desk<'d, K: WallClock, V: Server, L: Shelf> {
    pub alloc: Global,
    pub clock: &'d K,
    pub server: &'d V,
    pub shelf: &'d L,
    pub routes: &'d Routes,
    pub settings: &'d Settings,
    /// The branch's sheet, or nothing if there is none.
    pub sheet: &'d [u8],
    /// The zone of the clock on the wall, by which moments are shown.
    pub wall: TimeZone<'d>,
    /// Whether the server answers, as far as is known.
    pub line: Link,
    /// Who gives the word, where it isn't whose till it is.
    pub staff: Option<StaffNo>,
    /// The drawer at which the word is given, or 0 if it is the book's own.
    pub drawer: u32,
    /// Whether the server's bodies are printed as they are.
    pub is_json: bool,
    /// Whether what can't be undone is done without a question.
    pub is_sure: bool,
    /// The day of the date that was said last beside the book, if one was.
    pub said_day: Option<i32>,
}

impl<K: WallClock, V: Server, L: Shelf> Desk<'_, K, V, L> {
    /// Returns who the till is, by its settings.
    pub(crate) fn identity(&self) -> Identity<'_>
        ensures mark { result.mark.now ≡ self.now.settings.now.mark }
        ensures token { result.token.now ≡ self.now.settings.now.token }
    {
        Identity {
            routes: self.routes,
            mark: self.settings.mark.as_bytes().as_slice(),
            token: self.settings.token.as_bytes().as_slice(),
        }
    }

    /// Reads the seconds since 1970 from the clock, by UTC.
    pub(crate) fn seconds(&self) -> Result<u64, TillFault>
        ensures { IfOk result (K.shows self.now.clock.now) }
    {
        match self.clock.seconds() {
            Ok(seconds) => Ok(seconds),
            Err(error) => Err(TillFault::from(error)),
        }
    }

    /// Reads the moment from the clock, by the standard time of the till's zone. Fails with `System` if the moment is
    /// before 1970 or after 9999.
    pub(crate) fn now(&self) -> Result<Moment, TillFault>
        ensures { IfOk result (λ moment. local_clock (K.shows self.now.clock.now) self.now.settings.now.zone
            (seconds_of moment)) }
    {
        let seconds = self.seconds()?;
        let Some(second) = zone_second(&self.settings.zone, seconds) else {
            return Err(TillFault::System);
        };
        match moment_at(second) {
            Some(moment) => Ok(moment),
            None => Err(TillFault::System),
        }
    }

    /// Returns the clock's moment, or the last entry's if that is later, so that what was entered counts.
    pub(crate) fn now_behind(&self, last: Option<Moment>) -> Result<Moment, TillFault>
        ensures { IfOk result (IsNowBehind
            (local_clock (K.shows self.now.clock.now) self.now.settings.now.zone) last) }
    {
        let now = self.now()?;
        match last {
            Some(last) if now.is_earlier(last) => Ok(last),
            Some(_) | None => Ok(now),
        }
    }

    /// Returns what the clock on the wall showed at an entry's moment.
    pub(crate) fn on_wall(&self, at: Moment) -> Moment
        ensures { IsOnWall self.now.wall (offset_of self.now.settings.now.zone) at result }
    {
        on_wall(self.wall, zone_offset(&self.settings.zone), at)
    }

    /// Returns who gives a branch's word. Fails with `IsOffice` at head office's book, also if somebody is named.
    pub(crate) fn giver(&self) -> Result<StaffNo, TillFault>
        ensures given { result ≡ giver_of self.now.settings.now.staff self.now.staff }
        ensures branch { OnOk result (IsSome self.now.settings.now.staff) }
    {
        match self.settings.staff {
            Some(own) => Ok(self.staff.unwrap_or(own)),
            None => Err(TillFault::IsOffice),
        }
    }

    /// Returns the desk with that member of staff as who gives the word.
    pub(crate) fn by(&self, staff: StaffNo) -> Desk<'_, K, V, L>
        ensures clock { result.clock.now ≡ self.now.clock.now }
        ensures server { result.server.now ≡ self.now.server.now }
        ensures settings { result.settings.now ≡ self.now.settings.now }
        ensures staff { result.staff ≡ Some staff }
    {
        Desk {
            alloc: self.alloc,
            clock: self.clock,
            server: self.server,
            shelf: self.shelf,
            routes: self.routes,
            settings: self.settings,
            wall: self.wall,
            sheet: self.sheet,
            line: self.line,
            staff: Some(staff),
            drawer: self.drawer,
            is_json: self.is_json,
            is_sure: self.is_sure,
            said_day: self.said_day,
        }
    }

    /// Returns the desk with that way to the server.
    pub fn over<'o>(&'o self, server: &'o V) -> Desk<'o, K, V, L>
        ensures { result.server.now ≡ server.now }
    {
        Desk {
            alloc: self.alloc,
            clock: self.clock,
            server,
            shelf: self.shelf,
            routes: self.routes,
            settings: self.settings,
            wall: self.wall,
            sheet: self.sheet,
            line: self.line,
            staff: self.staff,
            drawer: self.drawer,
            is_json: self.is_json,
            is_sure: self.is_sure,
            said_day: self.said_day,
        }
    }

    /// Asks over one connection.
    fn asked(&self, request: &[u8]) -> Result<Answer, TillFault>
        ensures { IfOk result (λ answer. IsAnswered (V.opens self.now.server.now) V.Reader.remaining V.Writer.contents
            request.now (seen_answer answer)) }
    {
        let Ok((mut reader, mut writer)) = self.server.connect() else {
            return Err(TillFault::Silent);
        };
        match ask(self.alloc, &mut reader, &mut writer, request) {
            Ok(answer) if answer.status == 503 => Err(TillFault::Silent),
            Ok(answer) => Ok(answer),
            Err(_) => Err(TillFault::Silent),
        }
    }

    /// Asks once for something that changes nothing. While the line is down it fails at once.
    pub(crate) fn ask_once(&self, request: &[u8]) -> Result<Answer, TillFault>
        ensures { IfOk result (λ answer. IsAnswered (V.opens self.now.server.now) V.Reader.remaining V.Writer.contents
            request.now (seen_answer answer)) }
    {
        if self.line.is_down() {
            return Err(TillFault::Down);
        }
        self.asked(request)
    }

    /// Asks for something that changes nothing, up to three times. While the line is down it fails at once.
    pub(crate) fn ask(&self, request: &[u8]) -> Result<Answer, TillFault>
        ensures { IfOk result (λ answer. IsAnswered (V.opens self.now.server.now) V.Reader.remaining V.Writer.contents
            request.now (seen_answer answer)) }
    {
        if self.line.is_down() {
            return Err(TillFault::Down);
        }
        'rounds: for round in 0..ROUNDS {
            if round > 0 {
                self.clock.sleep(Duration::from_millis(200 * round));
            }
            if let Ok(answer) = self.asked(request) {
                return Ok(answer);
            }
        }
        Err(TillFault::Silent)
    }
}
