//! The page's text before its data. `.ci/explore_page.py --write` writes it.

/// The page's text before its data.
pub(crate) const BEFORE: &[u8] = b"\
    <!doctype html>\n\
    <html lang=\"en\">\n\
    <head>\n\
    <meta charset=\"utf-8\">\n\
    <meta http-equiv=\"Content-Security-Policy\" content=\"default-src 'none'; script-src 'sha256-OJFpdG6lY/M9FHc\
    lJK+YBcGOhumgKQOzsn+6anQDdyc=' 'sha256-7ZgQyYVjiNps+NRW/WsBZvFI1dSNLnPVzUzyObpADCk=' 'sha256-CGmcfDHDyliCuLTj\
    /4ehnwGjAkf4Pw1J8+EWNzDcqAo=' 'sha256-ELJWnDhlCBUfJorKQZ+GL05onk7yAn/f9SXOR3si6vE=' 'sha256-FZ+DN4R4KHAP5VP7E\
    IRs1WDuhV1nHYxKFyFly0xbMQI=' 'sha256-NWF6JYBrxukP/TcjhZGwJhuWkq7QZEcq/QWI2Co8yFw=' 'sha256-wDAAuqX0uS3zu340Jk\
    gWw9VoVPaBjgYNCNRItrSpc14=' 'sha256-tsRsD/TAsqw+FffR89hgEgmqobNywQ/2MXrtcNsTbDY=' 'sha256-DFLn9WS1veO3d4TA78m\
    gGfz4gOUs1hrmXSzppRMkrf8=' 'sha256-S3nj7sS2G2twjx2X5EJfjMb2pargt3oHiPnbcoqSkZE=' 'sha256-BA2S7wJ+YsjOIqbilV5j\
    IiAsGduEOc4cu19mQnHS7pY=' 'sha256-40d7jQ26UIpYn8LM0GkOvYx1R0KpGYgWaGbBx8l1yxQ=' 'sha256-DzsIJXb1XWgkqEMhcqbZY\
    z9n1HWe54RZruC+pNp4VXw='; style-src 'sha256-L4UbZWIADSdj+9xcd9Au/Dl6+csCkhmT9N0y4hq9Z5A='; base-uri 'none'; f\
    orm-action 'none'\">\n\
    <meta name=\"viewport\" content=\"width=device-width, initial-scale=1\">\n\
    <meta name=\"referrer\" content=\"no-referrer\">\n\
    <meta name=\"color-scheme\" content=\"light dark\">\n\
    <title>A run, to be explored</title>\n\
    <style>\n\
    :root {\n\
    \x20 color-scheme: light dark;\n\
    \x20 --font: system-ui, \"Segoe UI\", Roboto, \"DejaVu Sans\", sans-serif;\n\
    \x20 --mono: ui-monospace, \"SF Mono\", Menlo, Consolas, \"DejaVu Sans Mono\", monospace;\n\
    \x20 --lane-height: 80px;\n\
    \x20 --ground: #f5f5f2;\n\
    \x20 --surface: #ffffff;\n\
    \x20 --ink: #1c2127;\n\
    \x20 --muted: #5a6470;\n\
    \x20 --faint: #a5adb5;\n\
    \x20 --lane: #b9bfc6;\n\
    \x20 --line: #dcdfe2;\n\
    \x20 --message: #0072b2;\n\
    \x20 --forced: #003a5d;\n\
    \x20 --cut: #d55e00;\n\
    \x20 --cut-text: #a84a00;\n\
    \x20 --cut-tint: #d55e000d;\n\
    \x20 --film: #00714f;\n\
    \x20 --select: #7a3e9d;\n\
    \x20 --found: #7a3e9d;\n\
    \x20 --past: #0072b21f;\n\
    \x20 --future: #e69f0012;\n\
    \x20 --future-line: #c2860055;\n\
    \x20 --band: #1c212708;\n\
    \x20 --can-ground: #fbeee4;\n\
    \x20 --note: #5c4326;\n\
    \x20 --granted: #0a5c34;\n\
    \x20 --granted-ground: #e2f3e9;\n\
    \x20 --broken: #a3131b;\n\
    \x20 --broken-ground: #fce9e9;\n\
    \x20 --unsure: #5f4b00;\n\
    \x20 --unsure-ground: #fbf3d3;\n\
    }\n\
    @media (prefers-color-scheme: dark) {\n\
    \x20 :root:not(.printed) {\n\
    \x20   --ground: #131619;\n\
    \x20   --surface: #1a1e23;\n\
    \x20   --ink: #e4e8ec;\n\
    \x20   --muted: #9aa5b1;\n\
    \x20   --faint: #68737e;\n\
    \x20   --lane: #4a525b;\n\
    \x20   --line: #2e343b;\n\
    \x20   --message: #62b6e8;\n\
    \x20   --forced: #d3efff;\n\
    \x20   --cut: #ff8f3f;\n\
    \x20   --cut-text: #ffae74;\n\
    \x20   --cut-tint: #ffffff09;\n\
    \x20   --film: #4fd0a4;\n\
    \x20   --select: #c79be6;\n\
    \x20   --found: #c79be6;\n\
    \x20   --past: #62b6e830;\n\
    \x20   --future: #e6b04014;\n\
    \x20   --future-line: #e6b0404d;\n\
    \x20   --band: #ffffff0a;\n\
    \x20   --can-ground: #3a2413;\n\
    \x20   --note: #d8bf9c;\n\
    \x20   --granted: #7fdca4;\n\
    \x20   --granted-ground: #123021;\n\
    \x20   --broken: #ff9d9d;\n\
    \x20   --broken-ground: #3d1618;\n\
    \x20   --unsure: #efd27c;\n\
    \x20   --unsure-ground: #352c0c;\n\
    \x20 }\n\
    }\n\
    @media (forced-colors: active) {\n\
    \x20 :root {\n\
    \x20   --surface: Canvas; --ink: CanvasText; --muted: CanvasText; --faint: GrayText; --lane: GrayText;\n\
    \x20   --message: LinkText; --forced: LinkText; --cut: Highlight; --cut-text: CanvasText; --select: VisitedTe\
    xt;\n\
    \x20   --note: CanvasText; --granted: CanvasText; --broken: CanvasText; --unsure: CanvasText;\n\
    \x20 }\n\
    }\n\
    \n\
    * { box-sizing: border-box; }\n\
    html { background: var(--ground); color: var(--ink); font: 14px/1.45 var(--font); }\n\
    body { margin: 0; max-width: 1900px; margin-inline: auto; padding: 0 20px; }\n\
    h1, h2, h3, p, dl, dd, ul { margin: 0; padding: 0; }\n\
    h1 { font-size: 16px; font-weight: 650; letter-spacing: -0.01em; }\n\
    h1 span { font-weight: 400; color: var(--muted); }\n\
    h2 { font-size: 13px; font-weight: 650; margin-bottom: 8px; }\n\
    h3 { font-size: 14px; font-weight: 600; display: flex; align-items: center; justify-content: space-between; g\
    ap: 8px; }\n\
    code { font: 0.9em/1.5 var(--mono); overflow-wrap: anywhere; }\n\
    [hidden], .of-cycle, .cycle .of-cuts, .of-refusal, .refused .of-run, :root:not(.noted) .of-notes {\n\
    \x20 display: none !important;\n\
    }\n\
    .refused .of-refusal { display: block !important; }\n\
    .cycle .of-cycle { display: block !important; }\n\
    .unseen { position: absolute; width: 1px; height: 1px; overflow: hidden; clip-path: inset(50%); white-space: \
    nowrap; }\n\
    \n\
    button, select, input {\n\
    \x20 font: inherit; color: inherit; background: var(--surface); border: 1px solid var(--line); border-radius:\
    \x206px;\n\
    \x20 padding: 3px 10px; min-height: 28px;\n\
    }\n\
    button { cursor: pointer; }\n\
    button:hover:not(:disabled) { border-color: var(--muted); }\n\
    button:disabled { color: var(--muted); opacity: 0.55; cursor: default; }\n\
    button.plain {\n\
    \x20 background: none; border: 0; padding: 0; min-height: 0; color: var(--message); text-align: left;\n\
    \x20 text-decoration: underline; text-decoration-color: transparent; text-underline-offset: 3px;\n\
    }\n\
    button.plain:hover { text-decoration-color: currentColor; }\n\
    :focus-visible { outline: 2px solid var(--message); outline-offset: 2px; }\n\
    \n\
    header { display: flex; align-items: center; gap: 8px 20px; padding: 12px 0; flex-wrap: wrap; }\n\
    #verdict { font-size: 16px; font-weight: 650; overflow-wrap: anywhere; }\n\
    #verdict.granted { color: var(--granted); }\n\
    #verdict.broken { color: var(--broken); }\n\
    #verdict.unsure { color: var(--unsure); }\n\
    #counts { color: var(--muted); flex: 1 1 260px; }\n\
    #find { display: flex; align-items: center; gap: 4px; }\n\
    #query { width: min(340px, 60vw); }\n\
    #query::placeholder { color: var(--muted); opacity: 1; }\n\
    #matches { color: var(--muted); margin-left: 6px; max-width: 260px; overflow: hidden; text-overflow: ellipsis\
    ;\n\
    \x20 white-space: nowrap; }\n\
    #help-button { border-radius: 50%; width: 28px; padding: 0; }\n\
    \n\
    main { display: grid; grid-template-columns: minmax(0, 1fr) 380px; gap: 20px; align-items: start; }\n\
    .bar, .card, #stage, #overview, #panel > section { background: var(--surface); border: 1px solid var(--line);\
    \x20}\n\
    .bar { display: flex; align-items: center; gap: 6px 12px; flex-wrap: wrap; padding: 7px 10px; }\n\
    .bar .group { display: flex; gap: 4px; }\n\
    #tools { border-radius: 10px 10px 0 0; border-bottom: 0; }\n\
    #level { flex: 1 1 120px; min-width: 0; color: var(--muted); font-variant-numeric: tabular-nums; overflow: hi\
    dden;\n\
    \x20 text-overflow: ellipsis; white-space: nowrap; }\n\
    #hidden { flex: 1 1 260px; color: var(--muted); font-size: 12.5px; }\n\
    #hidden:empty { display: none; }\n\
    [aria-pressed=\"true\"]:not(.plain) {\n\
    \x20 border-color: var(--cut-text); color: var(--cut-text); background: var(--can-ground);\n\
    }\n\
    #stage { display: flex; border-bottom: 0; padding: 8px 0; }\n\
    #stage.last { border-bottom: 1px solid var(--line); border-radius: 0 0 10px 10px; }\n\
    #lanes { flex: none; min-width: 138px; max-width: 260px; }\n\
    .head { height: var(--lane-height); display: flex; align-items: center; }\n\
    .lane {\n\
    \x20 height: 100%; display: flex; flex-direction: column; justify-content: center; align-items: flex-end; fle\
    x: 1;\n\
    \x20 min-width: 0; padding: 0 12px 0 4px; line-height: 1.25; cursor: default; border-radius: 6px;\n\
    }\n\
    .controls { flex: none; display: flex; padding-left: 4px; }\n\
    .controls button { min-height: 0; width: 20px; height: 24px; padding: 0; border: 0; background: none;\n\
    \x20 color: var(--muted); line-height: 1; }\n\
    .controls button:hover, .moving .controls button { color: var(--ink); }\n\
    .handle { cursor: grab; touch-action: none; }\n\
    .moving, .moving .handle { cursor: grabbing; }\n\
    .head.folded { height: 20px; }\n\
    .folded .controls button { height: 20px; }\n\
    .folded .lane { flex-direction: row; align-items: center; justify-content: flex-end; }\n\
    .folded .lane .name { font-weight: 400; font-size: 11px; color: var(--muted); }\n\
    .folded .count { display: none; }\n\
    .lane:focus-visible { outline-offset: -3px; background: var(--band); }\n\
    .lane .name { font-weight: 600; max-width: 100%; overflow: hidden; text-overflow: ellipsis; white-space: nowr\
    ap; }\n\
    .count { color: var(--muted); font-size: 12px; font-variant-numeric: tabular-nums; }\n\
    #picture { flex: 1; min-width: 0; position: relative; overflow: hidden; }\n\
    #diagram { display: block; touch-action: pan-y; }\n\
    #overview { display: block; touch-action: none; cursor: pointer; border-radius: 0 0 10px 10px; max-width: 100\
    %; }\n\
    #tip {\n\
    \x20 position: absolute; pointer-events: none; background: var(--ink); color: var(--surface); padding: 3px 9p\
    x;\n\
    \x20 border-radius: 6px; font-size: 12.5px; max-width: min(460px, 90%); overflow-wrap: anywhere; z-index: 2;\n\
    }\n\
    #film { margin-top: 10px; border-radius: 10px; border-color: var(--film); }\n\
    #film strong { color: var(--film); }\n\
    #film-step { flex: 1; min-width: 140px; padding: 0; accent-color: var(--film); border: 0; background: none; }\
    \n\
    #film-play { min-width: 64px; }\n\
    #film-text { font-variant-numeric: tabular-nums; color: var(--muted); }\n\
    #film label { color: var(--muted); }\n\
    #status { min-height: 21px; margin: 8px 2px 10px; color: var(--muted); overflow-wrap: anywhere; }\n\
    #wrong-notes { margin: 0 2px 10px; color: var(--unsure); overflow-wrap: anywhere; }\n\
    #wrong-notes:empty { display: none; }\n\
    bdi.note, code { unicode-bidi: isolate; }\n\
    bdi.note { overflow-wrap: anywhere; }\n\
    a { color: var(--message); }\n\
    #refusal .card { max-width: 110ch; }\n\
    #refusal h2 { margin-top: 14px; }\n\
    #refusal ol { margin: 8px 0; padding-left: 22px; }\n\
    pre { margin: 12px 0; padding: 10px 12px; overflow-x: auto; background: var(--ground); border: 1px solid var(\
    --line);\n\
    \x20 border-radius: 6px; font: 13px/1.5 var(--mono); unicode-bidi: isolate; white-space: pre-wrap;\n\
    \x20 overflow-wrap: anywhere; }\n\
    \n\
    .cards { display: flex; flex-wrap: wrap; align-items: flex-start; gap: 14px; }\n\
    #event { flex: 1 1 min(100%, 340px); }\n\
    #listing { flex: 2 1 min(100%, 460px); }   /* below the event if that leaves no such width */\n\
    .noted #listing { flex-basis: min(100%, 560px); }\n\
    .card { border-radius: 10px; padding: 12px 14px; min-width: 0; }\n\
    .card dl, .answers { display: grid; grid-template-columns: max-content minmax(0, 1fr); gap: 3px 12px; }\n\
    dt { color: var(--muted); }\n\
    dd { overflow-wrap: anywhere; }\n\
    .hint { color: var(--muted); }\n\
    .actions { display: flex; gap: 6px; margin-top: 10px; flex-wrap: wrap; }\n\
    #listing-process { max-width: 100%; }\n\
    .pager { display: flex; gap: 6px; align-items: center; margin-bottom: 8px; color: var(--muted); }\n\
    table { border-collapse: collapse; width: 100%; font-variant-numeric: tabular-nums; }\n\
    th { font-weight: 500; text-align: left; }\n\
    thead th { color: var(--muted); font-size: 12px; font-weight: 400; padding: 2px 8px 4px 0; white-space: nowra\
    p; }\n\
    td, tbody th { padding: 2px 8px 2px 0; vertical-align: top; overflow-wrap: anywhere; }\n\
    #listing-table td:nth-child(3) { min-width: 8em; }\n\
    #listing-table td:nth-child(4) { min-width: 12em; }\n\
    #listing-table td.of-notes { min-width: 9em; }\n\
    #listing-table td:nth-child(3), #listing-table td:nth-child(4) { font: 12.5px/1.6 var(--mono); }\n\
    #listing-table .out { color: var(--muted); }\n\
    #listing-table .chosen { box-shadow: inset 3px 0 var(--select); }\n\
    #listing-table tr.chosen th { padding-left: 8px; }\n\
    \n\
    #panel { position: sticky; top: 10px; max-height: calc(100vh - 20px); overflow-y: auto; display: grid; gap: 1\
    4px; }\n\
    #panel > section { border-radius: 10px; padding: 12px 14px; }\n\
    .predicate { padding: 10px 0 10px 11px; border-top: 1px solid var(--line); border-left: 3px solid transparent\
    ;\n\
    \x20 margin-left: -14px; }\n\
    #type label { color: var(--muted); }\n\
    #typed { width: 100%; margin-top: 4px; font: 13px/1.5 var(--mono); }\n\
    .predicate:first-child { border-top: 0; padding-top: 2px; }\n\
    .predicate:last-child { padding-bottom: 0; }\n\
    .predicate.shown { border-left-color: var(--cut); }\n\
    .predicate h3 button.plain { color: var(--ink); font-weight: 600; overflow-wrap: anywhere; }\n\
    .verdict, .badge { font-size: 12.5px; font-weight: 600; border-radius: 999px; padding: 1px 10px; white-space:\
    \x20nowrap;\n\
    \x20 border: 1px solid transparent; }\n\
    .verdict.can, .verdict.always { color: var(--cut-text); background: var(--can-ground); }\n\
    .verdict.always { border-color: var(--cut-text); }\n\
    .verdict.cannot { color: var(--muted); background: var(--band); }\n\
    .granted::before { content: \"\xe2\x9c\x93 \"; }\n\
    .broken::before { content: \"\xe2\x9c\x97 \"; }\n\
    .unsure::before { content: \"? \"; }\n\
    .verdict.granted { color: var(--granted); background: var(--granted-ground); border-color: var(--granted); }\n\
    .verdict.broken { color: var(--broken); background: var(--broken-ground); border-color: var(--broken); }\n\
    .verdict.unsure { color: var(--unsure); background: var(--unsure-ground); border: 1px dashed var(--unsure); }\
    \n\
    .predicate .wish { margin-top: 2px; }\n\
    .verdict.unknown { color: var(--ink); border: 1px dashed var(--muted); }\n\
    .at { margin-top: 6px; color: var(--muted); }\n\
    .badge { padding: 0 8px; }\n\
    .badge.true { color: var(--ink); border-color: var(--ink); }\n\
    .badge.false { color: var(--muted); border-color: var(--line); }\n\
    .predicate > code { color: var(--muted); display: block; margin: 2px 0 6px; max-height: 7.5em; overflow: auto\
    ; }\n\
    .why { list-style: none; margin: 4px 0 8px; }\n\
    .why li { padding-left: 18px; position: relative; overflow-wrap: anywhere; }\n\
    .why li::before { position: absolute; left: 2px; color: var(--muted); }\n\
    .why li::before { content: \"\xe2\x80\xa2\"; }\n\
    #cycle ol { margin: 8px 0; padding-left: 22px; }\n\
    .answers { align-items: start; }\n\
    .answers .given { display: flex; gap: 8px; justify-content: space-between; align-items: start; }\n\
    .answers button { min-height: 22px; padding: 0 9px; font-size: 0.93em; flex: none; }\n\
    .predicate .hint { margin-top: 4px; font-size: 0.93em; }\n\
    #values { display: grid; gap: 10px 8px; grid-template-columns: repeat(auto-fill, minmax(104px, 1fr));\n\
    \x20 font-variant-numeric: tabular-nums; }\n\
    #values .process { grid-column: 1 / -1; min-width: 0; }\n\
    #values .of-one { grid-column: span 1; }\n\
    #values .of-two { grid-column: span 2; }\n\
    #values h3 { font-size: 13px; flex-wrap: wrap; gap: 0 8px; justify-content: flex-start; margin-bottom: 3px; }\
    \n\
    #values h3 span { overflow-wrap: anywhere; }\n\
    #values .count { font-weight: 400; flex: none; }\n\
    .cells { display: grid; grid-template-columns: repeat(auto-fill, minmax(104px, 1fr)); gap: 4px; }\n\
    .cell { min-width: 0; padding: 2px 7px 3px; border: 1px solid var(--line); border-radius: 6px; }\n\
    .cell dt { font-size: 12px; line-height: 1.3; overflow-wrap: anywhere; }\n\
    .cell.named dt { font-weight: 600; color: var(--ink); }\n\
    .cell dd { display: flex; flex-wrap: wrap; justify-content: space-between; gap: 0 8px; line-height: 1.35; }\n\
    .value { font-weight: 600; }\n\
    .was, .last { font-weight: 400; color: var(--muted); font-size: 12px; }\n\
    .by { color: var(--muted); font-size: 12px; white-space: nowrap; }\n\
    .cell.changed { background: color-mix(in srgb, var(--cut) 13%, transparent); border-color: var(--cut); }\n\
    \n\
    footer { color: var(--muted); font-size: 12.5px; padding: 20px 0 26px; display: grid; gap: 6px; max-width: 11\
    0ch; }\n\
    footer strong { color: var(--ink); font-weight: 600; }\n\
    .noscript { padding: 20px; }\n\
    \n\
    dialog { border: 1px solid var(--line); border-radius: 12px; background: var(--surface); color: var(--ink);\n\
    \x20 max-width: min(640px, 94vw); padding: 20px 24px; }\n\
    dialog::backdrop { background: #0006; }\n\
    dialog h2:focus { outline: 0; }\n\
    dialog th { white-space: nowrap; padding-right: 18px; }\n\
    kbd { font: 12px/1.4 var(--mono); border: 1px solid var(--line); border-radius: 4px; padding: 1px 5px;\n\
    \x20 background: var(--ground); }\n\
    .signs { list-style: none; margin: 14px 0; display: grid; gap: 4px; }\n\
    .signs li { padding-left: 34px; text-indent: -34px; }\n\
    .signs span { text-indent: 0; }\n\
    .sign { display: inline-block; width: 26px; height: 12px; margin-right: 8px; vertical-align: -1px; }\n\
    .sign.dot, .sign.ring { width: 12px; border-radius: 50%; border: 2px solid var(--ink); margin: 0 15px 0 7px; \
    }\n\
    .sign.dot { background: var(--ink); }\n\
    .sign.cut, .sign.forced, .sign.flight { height: 0; border-top: 3px solid var(--cut); vertical-align: 4px; }\n\
    .sign.forced { border-top-color: var(--forced); position: relative; }\n\
    .sign.forced::after { content: \"\"; position: absolute; right: -2px; top: -6.5px; border: 5px solid transpar\
    ent;\n\
    \x20 border-right: 0; border-left: 9px solid var(--forced); }\n\
    .sign.flight { border-top: 2px dashed var(--message); }\n\
    .sign.gap { height: 0; border-top: 1px dashed var(--muted); vertical-align: 4px; }\n\
    .key { font-size: 16px; padding: 0 3px; }\n\
    .sign.past { background: var(--past); }\n\
    .sign.future { background: repeating-linear-gradient(135deg, var(--future-line) 0 2px, var(--future) 2px 5px)\
    ; }\n\
    \n\
    @media (max-width: 1080px) {\n\
    \x20 main { display: flex; flex-direction: column; align-items: stretch; gap: 0; }\n\
    \x20 #run { display: contents; }\n\
    \x20 .cards { order: 2; margin-top: 14px; }\n\
    \x20 #panel { order: 1; position: static; max-height: none; overflow: visible;\n\
    \x20   grid-template-columns: repeat(auto-fit, minmax(min(100%, 340px), 1fr)); align-items: start; }\n\
    }\n\
    @media (max-width: 640px) {\n\
    \x20 body { padding: 0 10px; }\n\
    \x20 header { gap: 8px 12px; }\n\
    \x20 #help-button { margin-left: auto; }\n\
    \x20 #verdict, #counts { flex: 1 0 100%; order: 1; }\n\
    \x20 #find { order: 2; flex: 1 0 100%; }\n\
    \x20 #query { flex: 1; width: auto; min-width: 0; }\n\
    \x20 #matches { max-width: 40vw; }\n\
    \x20 #lanes { min-width: 96px; max-width: 96px; }\n\
    \x20 .lane { padding: 0 6px 0 2px; }\n\
    \x20 .controls { flex-direction: column; padding-left: 0; }\n\
    \x20 .controls button { width: 24px; height: min(24px, var(--lane-height) / 2); }\n\
    \x20 .folded .controls { flex-direction: row; }\n\
    \x20 .folded .controls button { width: 16px; }\n\
    \x20 .lane .name { white-space: normal; overflow-wrap: anywhere; text-align: right; font-size: 12px; line-hei\
    ght: 1.15;\n\
    \x20   max-height: 2.3em; }\n\
    \x20 #level, #hidden { order: 3; flex-basis: 100%; }\n\
    \x20 .of-zoom, .of-view { order: 2; }\n\
    \x20 .of-view { flex-wrap: wrap; }\n\
    \x20 .noted #listing-table :is(th, td):nth-child(2), .noted #listing-table :is(th, td):nth-child(6) { display\
    : none; }\n\
    \x20 #listing-table td:nth-child(3), #listing-table td:nth-child(4) { min-width: 5.5em; }\n\
    \x20 #listing-table td.of-notes { min-width: 6em; }\n\
    }\n\
    @media print {\n\
    \x20 @page { size: landscape; margin: 12mm; }\n\
    \x20 html { background: #fff; font-size: 11px; }\n\
    \x20 body { padding: 0; max-width: none; }\n\
    \x20 header form, #help-button, .bar .group, .controls, #film, #run .card, #overview, #status, button:not(.pl\
    ain), .pager {\n\
    \x20   display: none !important;\n\
    \x20 }\n\
    \x20 main { display: block; }\n\
    \x20 #stage, #stage.last { border: 0; }\n\
    \x20 #tools { border: 0; padding: 0; }\n\
    \x20 #diagram { max-width: 100%; }\n\
    \x20 #panel { display: grid; grid-template-columns: 1fr 1fr; position: static; max-height: none; overflow: vi\
    sible; }\n\
    \x20 #panel > section { border: 0; padding: 0; }\n\
    \x20 .predicate { margin-left: 0; }\n\
    \x20 .predicate, #values .process, footer p { break-inside: avoid; }\n\
    \x20 h2 { break-after: avoid; }\n\
    \x20 .verdict { print-color-adjust: exact; }\n\
    \x20 footer { font-size: 10px; padding: 12px 0 0; }\n\
    }\n\
    </style>\n\
    </head>\n\
    <body>\n\
    <header>\n\
    \x20 <h1>monitor <span>explore</span></h1>\n\
    \x20 <p id=\"verdict\"></p>\n\
    \x20 <p id=\"counts\"></p>\n\
    \x20 <form id=\"find\" class=\"of-run\" role=\"search\" autocomplete=\"off\">\n\
    \x20   <label for=\"query\" class=\"unseen\">Find an event</label>\n\
    \x20   <input id=\"query\" type=\"search\" placeholder=\"Find: process, message, note, x = 3\" spellcheck=\"f\
    alse\">\n\
    \x20   <button type=\"button\" id=\"previous\" title=\"previous (p)\" aria-label=\"Previous match\">\xe2\x80\xb9\
    </button>\n\
    \x20   <button type=\"submit\" id=\"next\" title=\"next (n)\" aria-label=\"Next match\">\xe2\x80\xba</button>\
    \n\
    \x20   <output id=\"matches\" for=\"query\"></output>\n\
    \x20 </form>\n\
    \x20 <button type=\"button\" id=\"help-button\" class=\"of-run\" aria-label=\"Keys and signs\" title=\"keys a\
    nd signs (?)\">?</button>\n\
    </header>\n\
    <main id=\"refusal\" class=\"of-refusal\">\n\
    \x20 <section class=\"card\" aria-labelledby=\"refusal-title\">\n\
    \x20   <h2 id=\"refusal-title\">The report</h2>\n\
    \x20   <p><code id=\"report\"></code></p>\n\
    \x20   <pre id=\"explanation\"></pre>\n\
    \x20   <h2>What to do next</h2>\n\
    \x20   <ol>\n\
    \x20     <li id=\"mend\"></li>\n\
    \x20     <li>Run <code>monitor explore</code> again. <em>What to do at a refusal</em> in <code>docs/RECORDING\
    .md</code> says of each refusal what is to be mended, and <code>docs/EXPLANATIONS.md</code> what the lines ab\
    ove mean.</li>\n\
    \x20   </ol>\n\
    \x20   <p class=\"actions\"><button type=\"button\" id=\"refusal-copy\">Copy the report</button> <span id=\"r\
    efusal-said\" class=\"hint\" role=\"status\"></span></p>\n\
    \x20 </section>\n\
    </main>\n\
    <main class=\"of-run\">\n\
    \x20 <section id=\"run\" aria-label=\"The run\">\n\
    \x20   <div class=\"bar\" id=\"tools\">\n\
    \x20     <div class=\"group of-cuts\">\n\
    \x20       <button type=\"button\" id=\"to-empty\" title=\"the cut before all events\">Start</button>\n\
    \x20       <button type=\"button\" id=\"to-full\" title=\"the cut after all events\">End</button>\n\
    \x20       <button type=\"button\" id=\"undo\" title=\"the cut before this one (u)\">Undo</button>\n\
    \x20     </div>\n\
    \x20     <p id=\"level\"></p>\n\
    \x20     <div class=\"group of-zoom\">\n\
    \x20       <button type=\"button\" id=\"zoom-out\" aria-label=\"Zoom out\" title=\"zoom out (-)\">\xe2\x88\x92\
    </button>\n\
    \x20       <button type=\"button\" id=\"zoom-in\" aria-label=\"Zoom in\" title=\"zoom in (+)\">+</button>\n\
    \x20       <button type=\"button\" id=\"fit\" title=\"the whole run (0)\">Fit</button>\n\
    \x20       <button type=\"button\" id=\"to-cut\" title=\"bring the cut, or the cycle, into view (c)\">To the \
    cut</button>\n\
    \x20     </div>\n\
    \x20     <div class=\"group\">\n\
    \x20       <button type=\"button\" id=\"save-picture\" title=\"save what is shown as a picture\">PNG</button>\
    \n\
    \x20       <button type=\"button\" id=\"save-drawing\" title=\"save what is shown as a drawing, of lines and \
    texts\">SVG</button>\n\
    \x20       <button type=\"button\" id=\"copy-text\" class=\"of-cuts\" title=\"copy the verdict, the cut, its \
    values\">Copy</button>\n\
    \x20     </div>\n\
    \x20     <div class=\"group of-view\">\n\
    \x20       <button type=\"button\" id=\"only\" class=\"of-cuts\" aria-pressed=\"false\" title=\"hide the even\
    ts that set nothing the shown predicate names\">Only what matters</button>\n\
    \x20       <button type=\"button\" id=\"named-first\" class=\"of-cuts\" title=\"put the processes that the sh\
    own predicate names on the first lanes\">Named first</button>\n\
    \x20       <button type=\"button\" id=\"reset-lanes\" title=\"all lanes unfolded, in the document's order\">R\
    eset lanes</button>\n\
    \x20     </div>\n\
    \x20     <p id=\"hidden\"></p>\n\
    \x20   </div>\n\
    \x20   <div id=\"stage\">\n\
    \x20     <div id=\"lanes\" role=\"group\" aria-label=\"The cut: how many events of each process it has\"></di\
    v>\n\
    \x20     <div id=\"picture\">\n\
    \x20       <canvas id=\"diagram\" role=\"img\" aria-label=\"The run as lanes, events and messages\"></canvas>\
    \n\
    \x20       <div id=\"tip\" hidden aria-hidden=\"true\"></div>\n\
    \x20     </div>\n\
    \x20   </div>\n\
    \x20   <canvas id=\"overview\" aria-hidden=\"true\" hidden></canvas>\n\
    \x20   <div class=\"bar\" id=\"film\" role=\"group\" aria-label=\"The observation as a film\" hidden>\n\
    \x20     <strong id=\"film-name\"></strong>\n\
    \x20     <button type=\"button\" id=\"film-back\" aria-label=\"One step back\" title=\"one step back\">\xe2\x97\
    \x82</button>\n\
    \x20     <button type=\"button\" id=\"film-play\" title=\"play and pause (space)\">Play</button>\n\
    \x20     <button type=\"button\" id=\"film-on\" aria-label=\"One step on\" title=\"one step on\">\xe2\x96\xb8\
    </button>\n\
    \x20     <input type=\"range\" id=\"film-step\" min=\"0\" step=\"1\" aria-label=\"Step of the observation\">\n\
    \x20     <output id=\"film-text\" for=\"film-step\"></output>\n\
    \x20     <label>Steps a second <select id=\"film-speed\"></select></label>\n\
    \x20     <button type=\"button\" id=\"film-close\">Close</button>\n\
    \x20   </div>\n\
    \x20   <p id=\"status\"></p>\n\
    \x20   <p id=\"wrong-notes\"></p>\n\
    \x20   <p id=\"live\" class=\"unseen\" role=\"status\" aria-live=\"polite\"></p>\n\
    \x20   <div class=\"cards\">\n\
    \x20     <section id=\"event\" class=\"card\" aria-labelledby=\"event-title\">\n\
    \x20       <h2 id=\"event-title\">Event</h2>\n\
    \x20       <div id=\"event-body\"></div>\n\
    \x20     </section>\n\
    \x20     <section id=\"listing\" class=\"card\" aria-labelledby=\"listing-title\">\n\
    \x20       <h2 id=\"listing-title\">The events of <select id=\"listing-process\" aria-label=\"Process\"></sel\
    ect></h2>\n\
    \x20       <div class=\"pager\">\n\
    \x20         <button type=\"button\" id=\"listing-earlier\">Earlier</button>\n\
    \x20         <button type=\"button\" id=\"listing-later\">Later</button>\n\
    \x20         <span id=\"listing-range\"></span>\n\
    \x20       </div>\n\
    \x20       <table id=\"listing-table\">\n\
    \x20         <thead><tr><th scope=\"col\">Event</th><th scope=\"col\">Line</th><th scope=\"col\">Sets</th><th\
    \x20scope=\"col\">Message</th><th scope=\"col\" class=\"of-notes\">Note</th><th scope=\"col\" class=\"of-cuts\
    \">In the cut</th></tr></thead>\n\
    \x20         <tbody></tbody>\n\
    \x20       </table>\n\
    \x20     </section>\n\
    \x20   </div>\n\
    \x20 </section>\n\
    \x20 <aside id=\"panel\" aria-label=\"The cut\">\n\
    \x20   <section aria-labelledby=\"cycle-title\" class=\"of-cycle\">\n\
    \x20     <h2 id=\"cycle-title\">A causal cycle</h2>\n\
    \x20     <div id=\"cycle\"></div>\n\
    \x20   </section>\n\
    \x20   <section aria-labelledby=\"predicates-title\" class=\"of-cuts\">\n\
    \x20     <h2 id=\"predicates-title\">Predicates</h2>\n\
    \x20     <div id=\"predicates\"></div>\n\
    \x20     <form id=\"type\" class=\"predicate\" autocomplete=\"off\">\n\
    \x20       <label for=\"typed\">Another predicate, at the cut shown alone</label>\n\
    \x20       <input id=\"typed\" type=\"text\" spellcheck=\"false\" aria-describedby=\"typed-at\">\n\
    \x20       <p id=\"typed-at\" class=\"at\" role=\"status\" hidden><span id=\"typed-words\"></span><span id=\"\
    typed-badge\"></span></p>\n\
    \x20       <ul id=\"typed-why\" class=\"why\" hidden></ul>\n\
    \x20     </form>\n\
    \x20   </section>\n\
    \x20   <section aria-labelledby=\"values-title\" class=\"of-cuts\">\n\
    \x20     <h2 id=\"values-title\">Values at the cut</h2>\n\
    \x20     <div id=\"values\"></div>\n\
    \x20   </section>\n\
    \x20 </aside>\n\
    </main>\n\
    <footer>\n\
    \x20 <p class=\"of-run\"><strong>Proved</strong> of the program that wrote this page: that it holds the sessi\
    on's events with their lines, messages, values and predicates, and the answers of its report or the cycle for\
    \x20which it is refused, as they are; that this report is right; and that nothing of what it holds is read as\
    \x20mark-up.\n\
    \x20 <strong>Not proved, only tested:</strong> the script of this page, which draws, moves the cut, reads val\
    ues and notes, and decides predicates at the cut, one that is typed too. Notes are what recorders wrote besid\
    e the streams, and order nothing.</p>\n\
    \x20 <p class=\"of-refusal\"><strong>Proved</strong> of the program that wrote this page: that the session is\
    \x20refused, with this report.\n\
    \x20 <strong>Not proved, only tested:</strong> what stands below the report, and the script of this page.</p>\
    \n\
    \x20 <p>The page asks nothing of any network.</p>\n\
    </footer>\n\
    <dialog id=\"help\" aria-labelledby=\"help-title\">\n\
    \x20 <h2 id=\"help-title\" tabindex=\"-1\" autofocus>Keys and signs</h2>\n\
    \x20 <table>\n\
    \x20   <tbody>\n\
    \x20     <tr><th scope=\"row\"><kbd>\xe2\x86\x90</kbd> <kbd>\xe2\x86\x92</kbd></th><td>one event of the lane \
    taken out of the cut, or into it; with <kbd>Page</kbd> ten, <kbd>Home</kbd> and <kbd>End</kbd> all</td></tr>\n\
    \x20     <tr><th scope=\"row\"><kbd>\xe2\x86\x91</kbd> <kbd>\xe2\x86\x93</kbd></th><td>the lane above, the la\
    ne below</td></tr>\n\
    \x20     <tr><th scope=\"row\"><kbd>,</kbd> <kbd>.</kbd></th><td>the event before, the event after, selected;\
    \x20the cut stays</td></tr>\n\
    \x20     <tr><th scope=\"row\"><kbd>Enter</kbd></th><td>the cut moved to the selected event</td></tr>\n\
    \x20     <tr><th scope=\"row\"><kbd>m</kbd></th><td>to the other end of the selected event's message</td></tr\
    >\n\
    \x20     <tr><th scope=\"row\"><kbd>Shift</kbd> <kbd>\xe2\x86\x90</kbd> <kbd>\xe2\x86\x92</kbd></th><td>along\
    \x20the run</td></tr>\n\
    \x20     <tr><th scope=\"row\"><kbd>+</kbd> <kbd>-</kbd> <kbd>0</kbd> <kbd>c</kbd></th><td>in, out, the whole\
    \x20run, to the cut</td></tr>\n\
    \x20     <tr><th scope=\"row\"><kbd>/</kbd> <kbd>n</kbd> <kbd>p</kbd></th><td>find, next, previous</td></tr>\n\
    \x20     <tr><th scope=\"row\"><kbd>Space</kbd></th><td>the film: play and pause</td></tr>\n\
    \x20     <tr><th scope=\"row\"><span class=\"key\">\xe2\xa0\xbf</span> <span class=\"key\">\xe2\x96\xbe</span\
    ></th><td>move a lane: drag it, or <kbd>\xe2\x86\x91</kbd> and <kbd>\xe2\x86\x93</kbd>; fold it to a thin lin\
    e, with stubs of its messages to other lanes</td></tr>\n\
    \x20     <tr><th scope=\"row\"><kbd>u</kbd> <kbd>Esc</kbd></th><td>the cut before, selection and film away</t\
    d></tr>\n\
    \x20     <tr><th scope=\"row\">Pointer</th><td>click an event: the cut moves there; with <kbd>Shift</kbd> it \
    is only selected. Drag a grip of the cut. Drag the ground or turn the wheel to go along the run; with <kbd>Ct\
    rl</kbd> the wheel zooms, and so do two fingers</td></tr>\n\
    \x20   </tbody>\n\
    \x20 </table>\n\
    \x20 <p class=\"hint\"><strong>Only what matters</strong> hides the events that set no variable which the sho\
    wn predicate names, and the messages without which those that do have the same order; small dots are ends of \
    messages that stay, and a dashed line hides as many events as its number says.</p>\n\
    \x20 <p class=\"hint of-notes\">A <strong>note</strong> stands below its event where there is room, in the li\
    st of events, and whole beside the selected one. Of several on one event the first stands below it, with the \
    number of the others, as +2; the list and the selected event have them all. A note is found by any part of it\
    s text or of its place. Its time is that of its machine's clock, and orders nothing. What shows as no letter \
    is an escape, as \\u202e.</p>\n\
    \x20 <ul class=\"signs\">\n\
    \x20   <li><span class=\"sign dot\"></span> has happened at the cut</li>\n\
    \x20   <li><span class=\"sign ring\"></span> has not happened</li>\n\
    \x20   <li><span class=\"sign gap\"></span> hidden events</li>\n\
    \x20   <li><span class=\"sign cut\"></span> the cut</li>\n\
    \x20   <li><span class=\"sign past\"></span> before the selected event</li>\n\
    \x20   <li><span class=\"sign future\"></span> after it; what is left bright is concurrent</li>\n\
    \x20   <li><span class=\"sign forced\"></span> a message that moved the cut of another process</li>\n\
    \x20   <li><span class=\"sign cut\"></span> of a refused session: the causal cycle</li>\n\
    \x20   <li><span class=\"sign flight\"></span> a message in flight: no one received it</li>\n\
    \x20   <li><span class=\"verdict granted\">as wished</span> never: possibly no; always: definitely yes; somet\
    imes: possibly yes</li>\n\
    \x20   <li><span class=\"verdict broken\">not as wished</span> the other answer</li>\n\
    \x20   <li><span class=\"verdict unsure\">unknown</span> grants no wish, and breaks none</li>\n\
    \x20 </ul>\n\
    \x20 <form method=\"dialog\"><button>Close</button></form>\n\
    </dialog>\n\
    <noscript><p class=\"noscript\">This page draws its run by its own script, and the browser lets no script run\
    .</p></noscript>\n\
    <script type=\"application/json\" id=\"data\">";
