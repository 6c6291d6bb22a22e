//! The style of the page.

ghost use Rattle.std.specs.Prelude.{◌≡◌, ◌++◌, OnOk};
ghost use Rattle.mon_page.specs.Style.{style_text};

use std::alloc::AllocError;

/// Adds the style.
#[tactic(auto, unfolding(crate::specs::Style::style_text, crate::specs::Style::colours, crate::specs::Style::layout, crate::specs::Style::counts, crate::specs::Style::marks, crate::specs::Style::plots, crate::specs::Style::narrow))]
pub(crate) fn put_style(text: &mut Vec<u8>) -> Result<(), AllocError>
    ensures { OnOk result (text.new.items ≡ text.old.items ++ style_text) }
{
    // Colours, by the scheme that the reader prefers.
    text.extend_from_slice(
        b":root{color-scheme:light dark;--line:#0a58ca;--limit:#b02a37;--good:#146c43;--muted:#595959;--edge:#8886}@media (prefers-color-scheme:dark){:root{--line:#6ea8fe;--limit:#ea868f;--good:#75b798;--muted:#adadad}}",
    )?;
    // The text and the tables.
    text.extend_from_slice(
        b"body{font:15px/1.35 system-ui,sans-serif;font-variant-numeric:tabular-nums;margin:1rem;max-width:80rem;overflow-wrap:anywhere}h1,h2,h3,p,ul{margin:.4rem 0}h1{font-size:1.4rem}h2{font-size:1.15rem}h3{font-size:1rem}ul{padding-left:1.2rem}small{color:var(--muted);font-weight:normal}a{color:var(--line)}table{border-collapse:collapse;width:100%;margin-bottom:1rem}caption{text-align:left;color:var(--muted)}th,td{border-top:1px solid var(--edge);padding:.2rem .5rem;text-align:right;vertical-align:top}tbody th,td.t,th:first-child,.i th:nth-child(2){text-align:left}",
    )?;
    // The counts.
    text.extend_from_slice(
        b".counts{display:flex;flex-wrap:wrap;gap:.5rem;list-style:none;padding:0}.counts li{border:1px solid var(--edge);padding:.3rem .7rem}.counts b{font-size:1.4rem}.bad,.down,.RAISED .s,li.RAISED b{color:var(--limit);font-weight:bold}.up{color:var(--good)}",
    )?;
    // States, stale rows, and what is closed.
    text.extend_from_slice(
        b".s,li.RAISED b{white-space:nowrap}.s,thead th,li.RAISED b{overflow-wrap:normal}.stale{color:var(--muted);font-style:italic}.stale path{stroke:var(--muted)}th div{font-weight:normal}.closed>div{display:none}.closed:target>div{display:block}",
    )?;
    // Plots and bars.
    text.extend_from_slice(
        b"svg{display:block;width:100%;max-width:15rem;height:2.5rem;margin-left:auto}path{fill:none;stroke:var(--line);stroke-width:1.5;stroke-linecap:round;vector-effect:non-scaling-stroke}.limit{stroke:var(--limit);stroke-width:1}meter{width:5rem;margin-left:.4rem}",
    )?;
    // A narrow window, where rows are blocks, and paper.
    text.extend_from_slice(
        b"@media (max-width:45rem){table,caption,tbody,tr,th,td{display:block;width:auto}thead{display:none}th,td,td.t{border:0;text-align:left}tr{border-top:1px solid var(--edge);padding:.4rem 0}svg{margin-left:0}td::before{color:var(--muted);font-weight:normal;font-style:normal}.i td:nth-child(3)::before{content:'In '}.i td:nth-child(4)::before{content:'Out '}.i td:nth-child(6)::before,.o td:nth-child(5)::before{content:'Alarm '}.i td:nth-child(7)::before,.o td:nth-child(6)::before{content:'Age in rounds '}.o td:nth-child(2)::before{content:'Value '}.o td:nth-child(3)::before{content:'Rate '}}@media print{.closed>div{display:block}a{color:inherit}tr{break-inside:avoid}}",
    )
}
