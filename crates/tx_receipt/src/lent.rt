// The marks that take a receipt lent to them, as the Rust does.
ghost use Rattle.std.specs.Prelude.{◌≡◌};
ghost use Rattle.questions.specs.Outcome.{number};
ghost use Rattle.questions.specs.Refusals.{outcome};
ghost use Rattle.tx_receipt.specs.Marks.{acknowledged, lost, reset, marked};

use crate::TxReceipt;
use questions::Refusal;

/// Transmitted to Acknowledged; where that is refused the receipt stays as it was.
pub fn acknowledged(receipt: &mut TxReceipt) -> Result<(), Refusal>
    ensures { record { number = number (outcome result); receipt = receipt.new } ≡ marked acknowledged receipt.old }
{
    *receipt = receipt.mark_acknowledged()?;
    Ok(())
}

/// Transmitted to Lost; where that is refused the receipt stays as it was.
pub fn lost(receipt: &mut TxReceipt) -> Result<(), Refusal>
    ensures { record { number = number (outcome result); receipt = receipt.new } ≡ marked lost receipt.old }
{
    *receipt = receipt.mark_lost()?;
    Ok(())
}

/// Back to Pending from any state; always made.
pub fn reset(receipt: &mut TxReceipt) -> Result<(), Refusal>
    ensures { record { number = number (outcome result); receipt = receipt.new } ≡ marked reset receipt.old }
{
    *receipt = receipt.reset();
    Ok(())
}
