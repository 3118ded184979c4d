// The audit of entries from a fresh ledger, exported to C.
#![tactic(auto)]

ghost use Rattle.std.specs.Prelude.{◌≡◌};
ghost use Rattle.audit_probe.specs.Audit.{cause_of, place_of, run_from, report_from, report_number};

// Audits entries from a fresh ledger: 0, or the cause of the first refusal.
#[unsafe(no_mangle)]
pub extern "C" fn c2c_audit(numbers: &[u32], entries: &[u8]) -> u32
    ensures { result ≡ cause_of (run_from numbers.now entries.now).answer }
{
    audit_probe::c2c_audit(numbers, entries)
}

// The same by a call of the audit an entry.
#[unsafe(no_mangle)]
pub extern "C" fn c2c_audit_each(numbers: &[u32], entries: &[u8]) -> u32
    ensures { result ≡ cause_of (run_from numbers.now entries.now).answer }
{
    audit_probe::c2c_audit_each(numbers, entries)
}

// The place of the first refusal, 0 where there is none.
#[unsafe(no_mangle)]
pub extern "C" fn c2c_audit_place(numbers: &[u32], entries: &[u8]) -> u64
    ensures { result ≡ place_of (run_from numbers.now entries.now).answer }
{
    audit_probe::c2c_audit_place(numbers, entries)
}

// How many entries are accepted before the first refusal.
#[unsafe(no_mangle)]
pub extern "C" fn c2c_audit_count(numbers: &[u32], entries: &[u8]) -> usize
    ensures { result ≡ (run_from numbers.now entries.now).accepted }
{
    audit_probe::c2c_audit_count(numbers, entries)
}

// How many bytes the accepted entries have.
#[unsafe(no_mangle)]
pub extern "C" fn c2c_audit_used(numbers: &[u32], entries: &[u8]) -> usize
    ensures { result ≡ (run_from numbers.now entries.now).used }
{
    audit_probe::c2c_audit_used(numbers, entries)
}

// Credits held · 2^32 + messages open behind the entries, of one direction and pool, or cause · 2^48.
#[unsafe(no_mangle)]
pub extern "C" fn c2c_audit_report(
    numbers: &[u32],
    entries: &[u8],
    direction: u32,
    pool: u32,
) -> u64
    ensures { result ≡ report_number (report_from numbers.now entries.now direction pool) }
{
    audit_probe::c2c_audit_report(numbers, entries, direction, pool)
}
