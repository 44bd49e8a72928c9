//! A line of a report.
ghost use Rattle.std.specs.Prelude.{◌≡◌, ◌<◌, ◌≤◌, ◌+◌, ◌*◌, ◌++◌, [], ◌∷◌, ℕ, length, Some, IfOk, codes, decimal, map};
ghost use Rattle.std.specs.List.{flat_map};
ghost use Rattle.link_params.specs.Links.{Link as LinkValue};
ghost use Rattle.scenario.specs.Digits.{hex_digits, word_digits};
ghost use Rattle.scenario.specs.ReportLines.{alarm_fields, fields_text, lane_id_fields, line, line_of, mark_name, word_fields};

use crate::digits::write_digits;
use crate::report_row::{Row, Totals};
use crate::scenario_type::Scenario;
use itoa::Buffer;
use jesd_base::NoMemory;
use link_params::{Alarm, Device, Link, Mark, Shape};
use std::alloc::Global;
use std::marker::Model;

/// The text of one line, in room that was taken when it was opened. Contracts see it as its bytes
/// and that room.
#[derive(Drop)]
pub struct LineText {
    bytes: Vec<u8>,
}

impl Model for LineText {
    ghost use Rattle.std.specs.Prelude.{vec_capacity};
    ghost use Rattle.scenario.specs.kept.TextRooms.{TextRoom};

    ghost Value = { TextRoom };

    ghost view = { λ t. record { bytes = t.bytes.items; room = vec_capacity t.bytes } };
}

impl LineText {
    /// No text yet, and room for so many bytes; `NoMemory` where there is none.
    pub fn open(alloc: Global, room: usize) -> Result<LineText, NoMemory>
        ensures empty { IfOk result (λ t. t.bytes ≡ []) }
        ensures room { IfOk result (λ t. room ≤ t.room) }
    {
        match Vec::with_capacity(alloc, room) {
            Ok(bytes) => Ok(LineText { bytes }),
            Err(_) => Err(NoMemory),
        }
    }

    /// Puts the line of a row in the place of the text: `words` are those of an `Enter` or a
    /// `Frame` row, and none for another one. Without a link the text is empty.
    pub fn line(&mut self, row: &Row, words: &[u32], s: &Scenario)
        requires room { 128 + 9 * length words.now ≤ self.old.room }
        ensures line { (k : LinkValue) → s.now.link ≡ Some k
            → self.new.bytes ≡ line_of s.now.version k row.now words.now }
        ensures room { self.old.room ≤ self.new.room }
    {
        match &s.link {
            None => self.bytes.clear(),
            Some(link) => self.row(row, words, link, s.version),
        }
    }

    /// The text.
    pub fn bytes(&self) -> &[u8]
        ensures { result.now ≡ self.now.bytes }
    {
        &self.bytes
    }

    // The line of a row of a link, in a version of the format.
    #[tactic(auto, unfolding(crate::specs::ReportLines::line_of))]
    pub(crate) fn row(&mut self, row: &Row, words: &[u32], link: &Link, version: u32)
        requires room { 128 + 9 * length words.now ≤ self.old.room }
        ensures line { self.new.bytes ≡ line_of version link.now row.now words.now }
        ensures room { self.old.room ≤ self.new.room }
    {
        match row {
            Row::Link => self.link_row(link),
            Row::Hunt(tick) => self.tick_row(b"hunt", *tick),
            Row::Arm(tick) => self.tick_row(b"arm", *tick),
            Row::Release(tick) => self.tick_row(b"release", *tick),
            Row::Alarm(tick, alarm) => self.alarm_row(*tick, alarm, version),
            Row::Enter(time) => self.enter_row(*time, words, &link.shape()),
            Row::Frame(time, mark) => self.frame_row(*time, *mark, words, &link.shape()),
            Row::End(totals) => self.end_row(totals),
        }
    }

    fn link_row(&mut self, link: &Link)
        requires room { 128 ≤ self.old.room }
        ensures line { (version : ℕ) → self.new.bytes ≡ line_of version link.now Row.Link [] }
        ensures room { self.old.room ≤ self.new.room }
    {
        self.start(b"link");
        self.numbers(&[
            link.shape().period(),
            link.lat_ticks(),
            link.latency(),
            link.depth(),
            link.bound(),
        ]);
        self.put_byte(b'\n');
    }

    fn tick_row(&mut self, kind: &[u8], tick: u32)
        requires kind { length kind.now ≤ 16 }
        requires room { 128 ≤ self.old.room }
        ensures line { self.new.bytes ≡ line kind.now (decimal tick ∷ []) }
        ensures room { self.old.room ≤ self.new.room }
    {
        self.start(kind);
        self.numbers(&[tick]);
        self.put_byte(b'\n');
    }

    fn alarm_row(&mut self, tick: u32, alarm: &Alarm, version: u32)
        requires room { 128 ≤ self.old.room }
        ensures line { self.new.bytes ≡ line (codes "alarm")
            (decimal tick ∷ alarm_fields version alarm.now) }
        ensures room { self.old.room ≤ self.new.room }
    {
        self.start(b"alarm");
        self.number(tick);
        self.alarm(alarm, version);
        self.put_byte(b'\n');
    }

    fn enter_row(&mut self, time: u32, words: &[u32], shape: &Shape)
        requires room { 128 + 9 * length words.now ≤ self.old.room }
        ensures line { self.new.bytes ≡ line (codes "enter") (decimal time ∷ word_fields shape.now words.now) }
        ensures room { self.old.room ≤ self.new.room }
    {
        self.start(b"enter");
        self.number(time);
        self.words(words, shape);
        self.put_byte(b'\n');
    }

    fn frame_row(&mut self, time: u32, mark: Mark, words: &[u32], shape: &Shape)
        requires room { 128 + 9 * length words.now ≤ self.old.room }
        ensures line { self.new.bytes ≡ line (codes "frame") (decimal time ∷ mark_name mark ∷ word_fields shape.now words.now) }
        ensures room { self.old.room ≤ self.new.room }
    {
        self.start(b"frame");
        self.number(time);
        self.mark(mark);
        self.words(words, shape);
        self.put_byte(b'\n');
    }

    #[tactic(auto, unfolding(crate::specs::ReportLines::line_of))]
    fn end_row(&mut self, totals: &Totals)
        requires room { 128 ≤ self.old.room }
        ensures line { (version : ℕ) (k : LinkValue)
            → self.new.bytes ≡ line_of version k (Row.End totals.now) [] }
        ensures room { self.old.room ≤ self.new.room }
    {
        self.start(b"end");
        self.numbers(&[
            totals.ticks,
            totals.entered,
            totals.delivered,
            totals.ok,
            totals.fixed,
            totals.bad,
            totals.alarms,
            totals.fullest,
        ]);
        self.put_byte(b'\n');
    }

    // The fields of an alarm behind its tick.
    fn alarm(&mut self, alarm: &Alarm, version: u32)
        requires { length self.old.bytes + 38 ≤ self.old.room }
        ensures bytes { self.new.bytes ≡ self.old.bytes ++ fields_text (alarm_fields version alarm.now) }
        ensures short { length self.new.bytes ≤ length self.old.bytes + 38 }
        ensures room { self.old.room ≤ self.new.room }
    {
        match alarm {
            Alarm::LaneWindow { lane, offset } => self.named(b"lane_window", &[*lane, *offset]),
            Alarm::LaneMissing { lane } => self.named(b"lane_missing", &[*lane]),
            Alarm::LaneLost { lane } => self.named(b"lane_lost", &[*lane]),
            Alarm::NoLock { lane } => self.named(b"no_lock", &[*lane]),
            Alarm::IlasFault { lane, place } => self.named(b"ilas_fault", &[*lane, *place]),
            Alarm::ConfigMismatch { lane, octet } => self.named(
                b"config_mismatch",
                &[*lane, *octet],
            ),
            Alarm::LaneId { lane, lid } => self.lane_id(*lane, *lid, version),
            Alarm::SysrefPhase { device, off } => self.sysref_phase(*device, *off),
            Alarm::StartTimeout => self.named(b"start_timeout", &[]),
        }
    }

    // Another lane's number; version 1 has configuration octet 2 in its place.
    fn lane_id(&mut self, lane: u32, lid: u32, version: u32)
        requires { length self.old.bytes + 38 ≤ self.old.room }
        ensures bytes { self.new.bytes ≡ self.old.bytes ++ fields_text (lane_id_fields version lane lid) }
        ensures short { length self.new.bytes ≤ length self.old.bytes + 38 }
        ensures room { self.old.room ≤ self.new.room }
    {
        if version >= 2 {
            self.named(b"lane_id", &[lane, lid]);
        } else {
            self.named(b"config_mismatch", &[lane, 2]);
        }
    }

    fn sysref_phase(&mut self, device: Device, off: u32)
        requires { length self.old.bytes + 38 ≤ self.old.room }
        ensures bytes { (version : ℕ) → self.new.bytes ≡ self.old.bytes
            ++ fields_text (alarm_fields version (Alarm.SysrefPhase device off)) }
        ensures short { length self.new.bytes ≤ length self.old.bytes + 38 }
        ensures room { self.old.room ≤ self.new.room }
    {
        self.name(b"sysref_phase");
        match device {
            Device::Tx => self.named(b"tx", &[off]),
            Device::Rx => self.named(b"rx", &[off]),
        }
    }

    fn mark(&mut self, mark: Mark)
        requires { length self.old.bytes + 6 ≤ self.old.room }
        ensures bytes { self.new.bytes ≡ self.old.bytes ++ (44 ∷ mark_name mark) }
        ensures short { length self.new.bytes ≤ length self.old.bytes + 6 }
        ensures room { self.old.room ≤ self.new.room }
    {
        match mark {
            Mark::Ok => self.name(b"ok"),
            Mark::Fixed => self.name(b"fixed"),
            Mark::Bad => self.name(b"bad"),
        }
    }

    // Words, each behind a comma.
    fn words(&mut self, words: &[u32], shape: &Shape)
        requires { length self.old.bytes + 9 * length words.now ≤ self.old.room }
        ensures bytes { self.new.bytes ≡ self.old.bytes
            ++ flat_map (λ w. 44 ∷ hex_digits (word_digits shape.now) w) words.now }
        ensures short { length self.new.bytes ≤ length self.old.bytes + 9 * length words.now }
        ensures room { self.old.room ≤ self.new.room }
    {
        let digits = shape.word_bits().div_ceil(4);
        for word in words {
            self.put_byte(b',');
            self.word(*word, digits);
        }
    }

    // The low `count` hexadecimal digits of a word.
    fn word(&mut self, word: u32, count: u32)
        requires count { count ≤ 8 }
        requires room { length self.old.bytes + count ≤ self.old.room }
        ensures bytes { self.new.bytes ≡ self.old.bytes ++ hex_digits count word }
        ensures short { length self.new.bytes ≤ length self.old.bytes + count }
        ensures room { self.old.room ≤ self.new.room }
    {
        let mut digits = [0; 8];
        let places = &mut digits[..count as usize];
        write_digits(word, places);
        self.put(places);
    }

    // A name and numbers, each behind a comma.
    fn named(&mut self, name: &[u8], values: &[u32])
        requires { length self.old.bytes + 1 + length name.now + 11 * length values.now
            ≤ self.old.room }
        ensures bytes { self.new.bytes ≡ self.old.bytes
            ++ fields_text (name.now ∷ map decimal values.now) }
        ensures short { length self.new.bytes ≤ length self.old.bytes + 1 + length name.now
            + 11 * length values.now }
        ensures room { self.old.room ≤ self.new.room }
    {
        self.name(name);
        self.numbers(values);
    }

    // Numbers, each behind a comma.
    fn numbers(&mut self, values: &[u32])
        requires { length self.old.bytes + 11 * length values.now ≤ self.old.room }
        ensures bytes { self.new.bytes ≡ self.old.bytes ++ fields_text (map decimal values.now) }
        ensures short { length self.new.bytes ≤ length self.old.bytes + 11 * length values.now }
        ensures room { self.old.room ≤ self.new.room }
    {
        for value in values {
            self.number(*value);
        }
    }

    // A number behind a comma.
    fn number(&mut self, value: u32)
        requires { length self.old.bytes + 11 ≤ self.old.room }
        ensures bytes { self.new.bytes ≡ self.old.bytes ++ (44 ∷ decimal value) }
        ensures short { length self.new.bytes ≤ length self.old.bytes + 11 }
        ensures room { self.old.room ≤ self.new.room }
    {
        let mut digits = Buffer::new();
        self.name(digits.format(value).as_bytes());
    }

    // A name behind a comma.
    fn name(&mut self, name: &[u8])
        requires { length self.old.bytes + 1 + length name.now ≤ self.old.room }
        ensures bytes { self.new.bytes ≡ self.old.bytes ++ (44 ∷ name.now) }
        ensures length { length self.new.bytes ≡ length self.old.bytes + 1 + length name.now }
        ensures room { self.old.room ≤ self.new.room }
    {
        self.put_byte(b',');
        self.put(name);
    }

    // The kind of a row in the place of the text.
    fn start(&mut self, kind: &[u8])
        requires { length kind.now ≤ self.old.room }
        ensures bytes { self.new.bytes ≡ kind.now }
        ensures room { self.old.room ≤ self.new.room }
    {
        self.bytes.clear();
        self.put(kind);
    }

    // Bytes that there is room for.
    fn put(&mut self, text: &[u8])
        requires { length self.old.bytes + length text.now ≤ self.old.room }
        ensures bytes { self.new.bytes ≡ self.old.bytes ++ text.now }
        ensures length { length self.new.bytes ≡ length self.old.bytes + length text.now }
        ensures room { self.old.room ≤ self.new.room }
    {
        if self.bytes.extend_from_slice(text).is_err() {
            unreachable!();
        }
    }
    // A byte that there is room for.
    fn put_byte(&mut self, byte: u8)
        requires { length self.old.bytes < self.old.room }
        ensures bytes { self.new.bytes ≡ self.old.bytes ++ byte ∷ [] }
        ensures length { length self.new.bytes ≡ length self.old.bytes + 1 }
        ensures room { self.old.room ≤ self.new.room }
    {
        self.bytes.push_reserved(byte);
    }
}
