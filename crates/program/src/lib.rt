// A program by value, as its file has it, and the instructions that its bytes stand for.
#![tactic(auto)]

ghost use Rattle.std.specs.Prelude.{◌≡◌, ◌<◌};
ghost use Rattle.std.proofs.Math.Option.{some};
ghost use Rattle.program.specs.Program.{operand, compute_mode, load_mode, store_mode, fence_mode, decode, no_code, no_program, instruction_at, instr_at, code_of};
ghost use Rattle.program.specs.Counts.{one_store};
ghost use Rattle.program.specs.Refusals.{number};

// An instruction's seven bytes. The operand (k, n) is the constant n for k = 0, the register n for k = 1.
#[derive(Clone, Copy, Default)]
pub struct Instruction {
    pub op: u8,
    pub m: u8,
    pub r: u8,
    pub k1: u8,
    pub n1: u8,
    pub k2: u8,
    pub n2: u8,
}

// A thread's instructions: the first `count` entries; the others are 0.
#[derive(Clone, Copy)]
pub struct Code {
    pub instructions: [Instruction; 16],
    pub count: u8,
}

// Kind 0: register `index` of `thread` has `value`; kind 1: location `index` ends with `value`.
#[derive(Clone, Copy, Default)]
pub struct Condition {
    pub kind: u8,
    pub thread: u8,
    pub index: u8,
    pub value: u8,
}

#[derive(Clone, Copy)]
pub struct Program {
    pub codes: [Code; 4],
    pub question: [Condition; 8],
    pub version: u8,
    pub threads: u8,
    pub conditions: u8,
}

#[derive(Clone, Copy)]
pub enum Operand {
    Constant(u8),
    OfRegister(u8),
}

#[derive(Clone, Copy)]
pub enum ComputeMode {
    Add,
    Subtract,
    ExclusiveOr,
    Equal,
}

#[derive(Clone, Copy)]
pub enum LoadMode {
    PlainLoad,
    Acquire,
    WeakAcquire,
}

#[derive(Clone, Copy)]
pub enum StoreMode {
    PlainStore,
    Release,
}

#[derive(Clone, Copy)]
pub enum FenceMode {
    DmbSy,
    DmbLd,
    DmbSt,
    Isb,
}

// What an instruction's bytes stand for.
#[derive(Clone, Copy)]
pub enum Instr {
    Compute(ComputeMode, u8, Operand, Operand),
    Load(LoadMode, u8, Operand, Operand),
    Store(StoreMode, Operand, Operand),
    Branch(u8, Operand, Operand),
    Fence(FenceMode),
}

// Why an input, a step or a search is refused. Each refusal has a number, by which the C calls and their header name it.
#[derive(Clone, Copy, PartialEq, Eq)]
pub enum Refusal {
    // of a program file or a trace file
    InputEnds = 1,
    OtherMark = 2,
    OtherVersion = 3,
    ThreadCount = 4,
    InstructionCount = 5,
    InstructionByte = 6,
    StoreCount = 7,
    ConditionByte = 8,
    BytesFollow = 9,
    ThreadNumber = 10,
    // of a step or a certification
    NotWellFormed = 20,
    NoThread = 21,
    StepKind = 22,
    NoLocation = 23,
    MemoryFull = 24,
    AtEnd = 25,
    NoMessage = 26,
    NewerMessage = 27,
    ViewNotBelow = 28,
    NotCertified = 29,
    // of a search or a listing
    ShortArea = 30,
    ManyOutcomes = 40,
}

// A refusal, and the place of the byte that is refused.
#[derive(Clone, Copy)]
pub struct Refused {
    pub refusal: Refusal,
    pub place: usize,
}

fn operand_of(k: u8, n: u8) -> Operand
    ensures { result ≡ operand k n }
{
    if k == 0 {
        Operand::Constant(n)
    } else {
        Operand::OfRegister(n)
    }
}

fn compute_mode(m: u8) -> ComputeMode
    ensures { result ≡ compute_mode m }
{
    match m {
        0 => ComputeMode::Add,
        1 => ComputeMode::Subtract,
        2 => ComputeMode::ExclusiveOr,
        _ => ComputeMode::Equal,
    }
}

fn load_mode(m: u8) -> LoadMode
    ensures { result ≡ load_mode m }
{
    match m {
        0 => LoadMode::PlainLoad,
        1 => LoadMode::Acquire,
        _ => LoadMode::WeakAcquire,
    }
}

fn store_mode(m: u8) -> StoreMode
    ensures { result ≡ store_mode m }
{
    if m == 0 {
        StoreMode::PlainStore
    } else {
        StoreMode::Release
    }
}

fn fence_mode(m: u8) -> FenceMode
    ensures { result ≡ fence_mode m }
{
    match m {
        0 => FenceMode::DmbSy,
        1 => FenceMode::DmbLd,
        2 => FenceMode::DmbSt,
        _ => FenceMode::Isb,
    }
}

impl Instruction {
    // What the seven bytes stand for.
    pub fn decode(self) -> Instr
        ensures { result ≡ decode self }
    {
        let a = operand_of(self.k1, self.n1);
        let b = operand_of(self.k2, self.n2);
        let op = self.op;
        match op {
            0 => Instr::Compute(compute_mode(self.m), self.r, a, b),
            1 => Instr::Load(load_mode(self.m), self.r, a, b),
            2 => Instr::Store(store_mode(self.m), a, b),
            3 => Instr::Branch(self.m, a, b),
            _ => Instr::Fence(fence_mode(self.m)),
        }
    }

    // 1 for a store, 0 for anything else.
    pub fn one_store(self) -> u8
        ensures { result ≡ one_store self }
    {
        if self.op == 2 { 1 } else { 0 }
    }
}

// No instructions.
impl Default for Code {
    fn default() -> Code
        ensures { result ≡ no_code }
    {
        Code {
            instructions: [Instruction::default(); 16],
            count: 0,
        }
    }
}

impl Code {
    // The bytes at a position; whether the position is before the thread's end is the caller's test.
    pub fn instruction_at(self, n: u8) -> Instruction
        requires { n < 16 }
        ensures { result ≡ instruction_at self n }
    {
        self.instructions[n as usize]
    }

    // The instruction at a position before the thread's end.
    pub fn instr_at(self, n: u8) -> Instr
        requires { (n < 16) × (n < self.count) }
        ensures { instr_at self n ≡ some result }
    {
        self.instruction_at(n).decode()
    }
}

// The program of all 0.
impl Default for Program {
    fn default() -> Program
        ensures { result ≡ no_program }
    {
        Program {
            codes: [Code::default(); 4],
            question: [Condition::default(); 8],
            version: 0,
            threads: 0,
            conditions: 0,
        }
    }
}

impl Program {
    pub fn code_of(self, i: u8) -> Code
        requires { i < 4 }
        ensures { result ≡ code_of self i }
    {
        self.codes[i as usize]
    }
}

impl Refusal {
    pub fn number(self) -> u8
        ensures { result ≡ number self }
    {
        self as u8
    }

    pub fn at(self, place: usize) -> Refused
        ensures { result ≡ record { refusal = self; place = place } }
    {
        Refused {
            refusal: self,
            place,
        }
    }
}
