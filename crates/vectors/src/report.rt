// What a replay counted, in lines of text. An error is that of a write; the lines before it are printed.
ghost use Rattle.std.specs.Prelude.{◌≡◌, IfOk};

use replay::Counts;
use std::io;

// The names of the opcodes, a dash where there is none.
const OPCODES: [&str; 64] = [
    "ADD", "ADDI", "SUB", "SUBI", "MUL", "MULI", "MULU", "MULUI", "DIV", "DIVI", "DIVU", "DIVUI",
    "REM", "REMI", "REMU", "REMUI", "AND", "ANDI", "OR", "ORI", "XOR", "XORI", "XNOR", "XNORI",
    "SLL", "SLLI", "SLR", "SLRI", "SAR", "SARI", "-", "LDHI", "BEQ", "BNE", "BLE", "BLEU", "BLT",
    "BLTU", "BGE", "BGEU", "BGT", "BGTU", "J", "JR", "JAL", "JALR", "TRAP", "RFX", "LDW", "LDH",
    "LDHU", "LDB", "LDBU", "STW", "STH", "STB", "MVFS", "MVTS", "TBS", "TBWR", "TBRI", "TBWI", "-",
    "-",
];

// The names of the exceptions from EID 16 on; each lower EID is an interrupt.
const EXCEPTIONS: [&str; 10] = [
    "bus timeout",
    "illegal instruction",
    "privileged instruction",
    "division by zero",
    "trap",
    "TLB miss",
    "TLB write",
    "TLB invalid",
    "illegal address",
    "privileged address",
];

fn print_opcodes(rt: &impl Print, counts: &[u32]) -> io::Result<()> {
    println!(rt; "completed steps by opcode:")?;
    for (opcode, (name, n)) in OPCODES.iter().zip(counts).enumerate() {
        if *name != "-" {
            println!(rt; "  {opcode:02X} {name:<5} {n}")?;
        }
    }
    Ok(())
}

fn print_exceptions(rt: &impl Print, counts: &[u32]) -> io::Result<()> {
    println!(rt; "accepted exceptions by EID:")?;
    let names = ["interrupt"; 16].into_iter().chain(EXCEPTIONS);
    for (eid, (name, n)) in names.zip(counts).enumerate() {
        println!(rt; "  {eid:02} {name:<22} {n}")?;
    }
    Ok(())
}

fn print_mismatches(rt: &impl Print, counts: Counts) -> io::Result<()> {
    println!(rt; "mismatches: {}", counts.mismatches)?;
    println!(rt; "bad commands: {}", counts.bad)?;
    if counts.mismatches > 0 {
        println!(rt; "first mismatch in case {}", counts.firstcase)?;
        println!(rt; "at its step {}", counts.firststep)?;
    }
    Ok(())
}

// Answers the mismatches that it was given.
pub fn print(
    rt: &impl Print,
    counts: Counts,
    opcodes: &[u32],
    exceptions: &[u32],
) -> io::Result<u32>
    ensures { IfOk result (λ n. n ≡ counts.mismatches) }
{
    println!(rt; "cases: {}", counts.cases)?;
    println!(rt; "steps: {}", counts.steps)?;
    print_opcodes(rt, opcodes)?;
    print_exceptions(rt, exceptions)?;
    print_mismatches(rt, counts)?;
    Ok(counts.mismatches)
}
