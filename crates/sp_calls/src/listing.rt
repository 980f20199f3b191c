// Listings, read and written back.
use crate::given::LONGEST;
use crate::text::AnswerText;
use sp_listing::{ListFault, proof_text, read_listing};
use sp_plan::Plan;
use std::alloc::{AllocError, Global};

/// Reads the input as a listing of the plan's query, and appends the text that is written of it, or its first bad line.
pub(crate) fn listing(
    alloc: Global,
    plan: &Plan,
    input: &[u8],
    out: &mut AnswerText,
) -> Result<(), AllocError> {
    if input.len() > LONGEST {
        return Ok(());
    }
    match read_listing(alloc, plan, input) {
        Ok(proofs) => {
            for proof in &proofs {
                out.text(proof_text(alloc, plan, proof)?.as_str());
            }
            Ok(())
        }
        Err(ListFault::BadLine { line }) => {
            out.last("line ", u64::from(line));
            Ok(())
        }
        Err(ListFault::Memory) => Err(AllocError),
    }
}
