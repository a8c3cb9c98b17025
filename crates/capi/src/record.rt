ghost use Rattle.std.specs.Prelude.{◌≡◌, ◌+◌, ◌≤◌, [], ◌++◌, length, drop};
ghost use Rattle.capi.specs.Records.{registers_of, ports_of, timers_of, counters_of, requests_of, parts_of, record_of};

use bench::held::Held;
use bus::parts::Parts;
use counters::basic::BasicTimer;
use counters::buzzer::Buzzer;
use counters::timer::Timers;
use cpu::registers::Registers;
use ports::port::Ports;
use ports::request::Requests;
use std::marker::Model;

// The bytes of a record.
pub(crate) const RECORD: usize = 192;

// The bytes of a record so far, which clauses see as a list: the first ones of an array, since nothing is allocated.
#[derive(Drop)]
struct Record {
    bytes: [u8; RECORD],
    length: usize,
}

impl Model for Record {
    ghost use Rattle.std.specs.Prelude.{ℕ, ◌≤◌, List, take};

    ghost Value = { List ℕ };

    ghost view = { λ r. take r.length r.bytes };

    ghost invariant = { λ r. r.length ≤ 192 };
}

impl Record {
    fn new() -> Record
        ensures { result ≡ [] }
    {
        Record {
            bytes: [0; RECORD],
            length: 0,
        }
    }

    fn push(&mut self, bytes: &[u8])
        requires { length self.old + length bytes.now ≤ 192 }
        ensures { self.new ≡ self.old ++ bytes.now }
    {
        let end = self.length + bytes.len();
        self.bytes[self.length..end].copy_from_slice(bytes);
        self.length = end;
    }

    fn bytes(&self) -> &[u8]
        ensures { result.now ≡ self.now }
    {
        &self.bytes[..self.length]
    }
}

// Each of these says how many of the 192 bytes it needs: that is of the bytes before it, of which no invariant speaks.
fn put_registers(out: &mut Record, registers: &Registers)
    requires { length out.old + 7 ≤ 192 }
    ensures { out.new ≡ out.old ++ registers_of registers.now }
{
    out.push(&[registers.a, registers.x, registers.y, registers.sp]);
    out.push(&registers.pc.to_le_bytes());
    out.push(&[registers.psw()]);
}

// Latches, directions and functions.
fn put_ports(out: &mut Record, ports: &Ports)
    requires { length out.old + 9 ≤ 192 }
    ensures { out.new ≡ out.old ++ ports_of ports.now }
{
    out.push(&[ports.ra, ports.rb, ports.rc]);
    out.push(&[ports.raio, ports.rbio, ports.rcio]);
    out.push(&[ports.rafunc, ports.rbfunc, ports.pupsel]);
}

// TM, TDR and count of both timers, and COMP's level.
fn put_timers(out: &mut Record, timers: &Timers)
    requires { length out.old + 7 ≤ 192 }
    ensures bytes { out.new ≡ out.old ++ timers_of timers.now }
    ensures long { length out.new ≡ length out.old + 7 }
{
    for timer in timers.pair {
        out.push(&[timer.control, timer.limit, timer.count]);
    }
    out.push(&[u8::from(timers.comp)]);
}

fn put_counters(out: &mut Record, buzzer: &Buzzer, basic: &BasicTimer)
    requires { length out.old + 7 ≤ 192 }
    ensures { out.new ≡ out.old ++ counters_of buzzer.now basic.now }
{
    out.push(&[buzzer.bur, buzzer.count, u8::from(buzzer.level)]);
    out.push(&[basic.control, basic.bitr, basic.wdtr, basic.watchdog]);
}

fn put_requests(out: &mut Record, requests: &Requests)
    requires { length out.old + 5 ≤ 192 }
    ensures { out.new ≡ out.old ++ requests_of requests.now }
{
    out.push(&[requests.ienh, requests.ienl, requests.irqh]);
    out.push(&[requests.irql, requests.ieds]);
}

fn put_parts(out: &mut Record, parts: &Parts)
    requires { length out.old + 165 ≤ 192 }
    ensures bytes { out.new ≡ out.old ++ parts_of parts.now }
    ensures long { length out.new ≡ length out.old + 165 }
{
    put_registers(out, &parts.registers);
    out.push(&parts.memory.ram);
    put_ports(out, &parts.ports);
    put_timers(out, &parts.timers);
    put_counters(out, &parts.buzzer, &parts.basic);
    put_requests(out, &parts.requests);
    out.push(&[parts.pfdr, parts.mode.letter()]);
}

impl Record {
    // Every field of a chip's record, low bytes first.
    fn of(held: &Held) -> Record
        ensures bytes { result ≡ record_of held.now }
        ensures long { length result ≡ 192 }
    {
        let mut record = Record::new();
        put_parts(&mut record, &held.moment.machine.parts);
        record.push(&[held.moment.machine.owed]);
        record.push(&held.moment.machine.prescaler.to_le_bytes());
        record.push(&held.moment.tick.to_le_bytes());
        record.push(&held.stretches.pins.to_le_bytes());
        record.push(&held.stretches.modes.to_le_bytes());
        record
    }
}

// Writes a chip's record over the start of a buffer.
pub(crate) fn put_record(held: &Held, fields: &mut [u8])
    requires { 192 ≤ length fields.old }
    ensures { fields.new ≡ record_of held.now ++ drop 192 fields.old }
{
    let record = Record::of(held);
    fields[..RECORD].copy_from_slice(record.bytes());
}
