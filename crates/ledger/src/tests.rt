// What the tests share: a ledger with its memory, on which each call takes rows in place of tokens.
mod blocks;
mod cutting;
mod joining;
mod refusals;

ghost use Rattle.std.specs.Prelude.{◌≡◌, true};

use crate::bytes_mut::{BytesMut, Refused};
use crate::ledger::Ledger;
use faults::Fault;
use growth::Doubling;
use memory::fault::MemoryFault;
use memory::interface::Memory;
use memory::own::OwnMemory;
use memory::window::Window;
use std::array;
use std::process::Abort;
use table::table::Table;
use table::tally::Tally;

// The largest argument of a call.
const FAR: u64 = u64::MAX;

// A token of any ledger and row, which may be let go at once.
fn token_of(ledger: u32, row: u8) -> BytesMut
    ensures { result.spent ≡ true }
{
    BytesMut {
        ledger,
        row,
        spent: true,
    }
}

// The row of a token, which is let go.
fn let_go(mut token: BytesMut) -> u8 {
    token.spent = true;
    token.row
}

// The fault of a call that gave its token back, which is let go.
fn fault_of(refused: Refused) -> Fault {
    let Refused { fault, token } = refused;
    let_go(token);
    fault
}

// Whether the other handle was joined. If not, its token is let go.
fn was_joined(tried: Result<(), BytesMut>) -> bool {
    match tried {
        Ok(()) => true,
        Err(token) => {
            let_go(token);
            false
        }
    }
}

// So many bytes from a first one on.
fn count_up<const N: usize>(first: u8) -> [u8; N] {
    let mut bytes = [first; N];
    let mut next = first;
    for byte in bytes.iter_mut() {
        *byte = next;
        next = next.wrapping_add(1);
    }
    bytes
}

// A memory of this size, with the position's number at each of the first 128.
fn numbered(size: u32) -> Window<OwnMemory> {
    let mut mem = OwnMemory::new();
    for position in 0..128 {
        let _ = mem.put(position, position as u8);
    }
    Window::new(mem, 0, size)
}

// A ledger, its memory, and the number of the ledger that tokens name.
#[derive(Drop)]
struct Fixture<'a, A> {
    rt: &'a A,
    ledger: Ledger,
    mem: Window<OwnMemory>,
    number: u32,
}

// A memory that reaches as far as a ledger with a limit of 32 does, and one that reaches further.
const SIZES: [u32; 2] = [32, 4096];

// An open ledger over a memory of this size.
fn opened_over<A: Abort>(rt: &A, fixed: u64, limit: u64, size: u32) -> Fixture<'_, A> {
    let mut fixture = Fixture::new(rt, size);
    assert_eq!(rt; fixture.open(7, fixed, limit), Ok(()));
    fixture
}

// An open ledger over a memory that reaches as far as it does.
fn opened<A: Abort>(rt: &A, fixed: u64, limit: u32) -> Fixture<'_, A> {
    opened_over(rt, fixed, limit as u64, limit)
}

// An open ledger whose handle in row 63 has 64 bytes, and shows these.
fn holding<'a, A: Abort>(rt: &'a A, bytes: &[u8]) -> Fixture<'a, A> {
    let mut fixture = opened(rt, 16, 4096);
    assert_eq!(rt; fixture.with_capacity(64), Ok(63));
    assert_eq!(rt; fixture.extend(63, bytes), Ok(0));
    fixture
}

impl<'a, A: Abort> Fixture<'a, A> {
    // A shut ledger over a memory of this size.
    fn new(rt: &'a A, size: u32) -> Self {
        Fixture {
            rt,
            ledger: Ledger::new(),
            mem: numbered(size),
            number: 7,
        }
    }

    fn token(&self, row: u8) -> BytesMut
        ensures { result.spent ≡ true }
    {
        token_of(self.number, row)
    }

    fn table(&self) -> Table {
        self.ledger.table.rows
    }

    // The first bytes of the memory.
    fn front(&self) -> [Result<u8, MemoryFault>; 128] {
        array::from_fn(|position| self.mem.read(position as u32))
    }

    // What a call answers. A refused one leaves the table and the memory as they were.
    fn call<T, F: FnOnce(&mut Ledger, &mut Window<OwnMemory>) -> Result<T, Fault>>(
        &mut self,
        call: F,
    ) -> Result<T, Fault>
        requires { F.IsAlwaysCallable call }
    {
        let rt = self.rt;
        let table = self.table();
        let front = self.front();
        let answer = call(&mut self.ledger, &mut self.mem);
        if answer.is_err() {
            assert_eq!(rt; self.table(), table);
            assert!(rt; self.front() == front);
        }
        answer
    }

    fn open(&mut self, number: u32, fixed: u64, limit: u64) -> Result<(), Fault> {
        self.call(|ledger, _| ledger.open(number, fixed, limit))
    }

    fn tally(&mut self) -> Result<Tally, Fault> {
        self.call(|ledger, _| ledger.tally())
    }

    fn with_capacity(&mut self, capacity: u64) -> Result<u8, Fault> {
        self.call(|ledger, _| BytesMut::with_capacity(ledger, capacity).map(let_go))
    }

    fn from(&mut self, source: &[u8]) -> Result<u8, Fault> {
        self.call(|ledger, mem| BytesMut::from(ledger, mem, source).map(let_go))
    }

    fn len(&mut self, row: u8) -> Result<u32, Fault> {
        let token = self.token(row);
        self.call(|ledger, _| token.len(ledger))
    }

    fn capacity(&mut self, row: u8) -> Result<u32, Fault> {
        let token = self.token(row);
        self.call(|ledger, _| token.capacity(ledger))
    }

    fn read<const N: usize>(
        &mut self,
        row: u8,
        at: u64,
        before: [u8; N],
    ) -> Result<[u8; N], Fault> {
        self.read_front(row, at, before, N)
    }

    // The buffer as a call leaves it that fills its first `count` bytes. A refused one leaves it as it was.
    fn read_front<const N: usize>(
        &mut self,
        row: u8,
        at: u64,
        before: [u8; N],
        count: usize,
    ) -> Result<[u8; N], Fault> {
        let rt = self.rt;
        let mut out = before;
        let token = self.token(row);
        let answer = self.call(|ledger, mem| token.read(ledger, mem, at, &mut out[..count.min(N)]));
        if answer.is_err() {
            assert_eq!(rt; out, before);
        }
        answer.map(|()| out)
    }

    fn split_off(&mut self, row: u8, at: u64) -> Result<u8, Fault> {
        let token = self.token(row);
        self.call(|ledger, _| token.split_off(ledger, at).map(let_go))
    }

    fn split_to(&mut self, row: u8, at: u64) -> Result<u8, Fault> {
        let token = self.token(row);
        self.call(|ledger, _| token.split_to(ledger, at).map(let_go))
    }

    fn split(&mut self, row: u8) -> Result<u8, Fault> {
        let token = self.token(row);
        self.call(|ledger, _| token.split(ledger).map(let_go))
    }

    fn truncate(&mut self, row: u8, len: u64) -> Result<(), Fault> {
        let token = self.token(row);
        self.call(|ledger, _| token.truncate(ledger, len))
    }

    fn advance(&mut self, row: u8, count: u64) -> Result<(), Fault> {
        let token = self.token(row);
        self.call(|ledger, _| token.advance(ledger, count))
    }

    fn reserve(&mut self, row: u8, additional: u64) -> Result<u32, Fault> {
        let token = self.token(row);
        self.call(|ledger, mem| token.reserve(ledger, mem, &Doubling::default(), additional))
    }

    // The bytes that slid, where the block has the room.
    fn try_reclaim(&mut self, row: u8, additional: u64) -> Result<Option<u32>, Fault> {
        let token = self.token(row);
        self.call(|ledger, mem| token.try_reclaim(ledger, mem, additional))
    }

    fn extend(&mut self, row: u8, source: &[u8]) -> Result<u32, Fault> {
        let token = self.token(row);
        self.call(|ledger, mem| token.extend_from_slice(ledger, mem, &Doubling::default(), source))
    }

    // Whether the other was joined.
    fn try_unsplit(&mut self, row: u8, other: u8) -> Result<bool, Fault> {
        let number = self.number;
        let token = token_of(number, row);
        self.call(|ledger, _| {
            token
                .try_unsplit(ledger, token_of(number, other))
                .map(was_joined)
                .map_err(fault_of)
        })
    }

    fn unsplit(&mut self, row: u8, other: u8) -> Result<u32, Fault> {
        let number = self.number;
        let token = token_of(number, row);
        self.call(|ledger, mem| {
            token
                .unsplit(ledger, mem, &Doubling::default(), token_of(number, other))
                .map_err(fault_of)
        })
    }

    fn release(&mut self, row: u8) -> Result<(), Fault> {
        let number = self.number;
        self.call(|ledger, _| token_of(number, row).release(ledger).map_err(fault_of))
    }
}
