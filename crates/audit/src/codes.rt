//! The numbers of replies, of refusals and of stops.

ghost use Rattle.std.specs.Prelude.{◌↔◌, IsTrue};
ghost use Rattle.audit.specs.Rows.{IsReplyCode, IsRefusalCode, IsStopCode, IsCampaignCode};

/// Whether it is a reply's.
pub(crate) fn is_reply_code(code: u64) -> bool
    ensures { IsTrue result ↔ IsReplyCode code }
{
    matches!(code, 0 | 21..=24 | 31 | 32)
}

/// Whether a node refuses an event or a query with it.
pub(crate) fn is_refusal_code(code: u64) -> bool
    ensures { IsTrue result ↔ IsRefusalCode code }
{
    matches!(code, 41..=45 | 47 | 49)
}

/// Whether a node stops with it.
pub(crate) fn is_stop_code(code: u64) -> bool
    ensures { IsTrue result ↔ IsStopCode code }
{
    matches!(code, 46..=48)
}

/// Whether a node refuses with it to start a campaign.
pub(crate) fn is_campaign_code(code: u64) -> bool
    ensures { IsTrue result ↔ IsCampaignCode code }
{
    matches!(code, 42 | 43)
}
